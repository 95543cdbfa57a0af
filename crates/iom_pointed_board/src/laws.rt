//! Laws of requests that are walked ahead, each the contract of a function that does nothing.
ghost use Rattle.iom_pointed_board.specs.Laws.{AheadAreCalls, AheadIsSound};

/// What is kept ahead of a request is kept by calls of hardware that caches pointers, and leaves the board sound.
pub fn ahead_law()
    ensures calls { AheadAreCalls }
    ensures sound { AheadIsSound }
{}
