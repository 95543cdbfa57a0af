//! What follows from the definitions, for the layers above. Each does nothing.
ghost use Rattle.iom_stepped_board.specs.Beside.{SoftwareStaysBeside, StaysBeside};
ghost use Rattle.iom_stepped_board.specs.Events.{
  AskStaysBeside,
  ClaimStaysBeside,
  CommitStaysBeside,
  CopyStaysBeside,
  DeliveryStaysBeside,
  LossStaysBeside,
  MediumStaysBeside,
  TimeoutStaysBeside,
};

/// An event of the board that leaves the accesses in flight as they are, and the devices in their order, leaves what is under way
/// beside it; and so does whatever software does to memory and registers.
pub fn stays_beside()
    ensures board { StaysBeside }
    ensures software { SoftwareStaysBeside }
{}

/// Each event of the board in which what is under way has no part leaves it beside the board.
pub fn events_stay_beside()
    ensures commit { CommitStaysBeside }
    ensures medium { MediumStaysBeside }
    ensures timeout { TimeoutStaysBeside }
    ensures question { AskStaysBeside }
    ensures claim { ClaimStaysBeside }
    ensures loss { LossStaysBeside }
    ensures copy { CopyStaysBeside }
    ensures delivery { DeliveryStaysBeside }
{}
