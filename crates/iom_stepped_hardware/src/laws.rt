//! What follows from the definitions, for the layers above. It does nothing.
ghost use Rattle.iom_stepped_hardware.specs.Laws.{BoardStaysBeside, DeliveryStaysBeside, MediumStaysBeside, NoneIsBeside, SoftwareStaysBeside};

/// Each event of the hardware in which what is under way has no part leaves it beside the hardware; at power-on nothing is under way.
pub fn events_stay_beside()
    ensures power_on { NoneIsBeside }
    ensures board { BoardStaysBeside }
    ensures software { SoftwareStaysBeside }
    ensures medium { MediumStaysBeside }
    ensures delivery { DeliveryStaysBeside }
{}
