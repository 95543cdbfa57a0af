//! What is proved of hardware and the ways that devices have in it.
ghost use Rattle.iom_hardware_ways.specs.Laws.{FirstStagesLead, SecondStagesLead, BothStagesLead, FirstStagesAreReached, SecondStagesAreReached, SizesHaveIndices, DirectoriesLead, DirectoriesAreFound, NapotReadsMore, CallsAreTransitions, CallsAddNoWay, MadeAccessesHadWays, QuietStaysQuiet, GoodClaimsHold, FreeStaysFree, BeginsSafe};

/// What the hardware's walks of tables (RISC-V Privileged Architecture, "Sv39", "Sv48", "Two-Stage Address Translation") and
/// of the device directory (IOMMU specification, section 2.3.1) reach is what walks by its formats lead to; and but for
/// both stages, where a guest's own tables count too, the other way round.
pub fn walk_law()
    ensures first { FirstStagesLead }
    ensures second { SecondStagesLead }
    ensures both { BothStagesLead }
    ensures first_back { FirstStagesAreReached }
    ensures second_back { SecondStagesAreReached }
    ensures indices { SizesHaveIndices }
    ensures directory { DirectoriesLead }
    ensures directory_back { DirectoriesAreFound }
{}

/// A walk that knows leaves of 64 KiB (RISC-V Privileged Architecture, "Svnapot") finds whatever one finds that
/// doesn't, and such a leaf where that one faults. So it reads the same tables.
pub fn napot_law()
    ensures { NapotReadsMore }
{}

/// Each call of hardware is a list of the transitions of which the facts on ways speak.
pub fn call_law()
    ensures each { CallsAreTransitions }
{}

/// So no list of calls adds a way, where hardware and devices can't write what hardware reads; each access that is made
/// had its way at the beginning; what was withdrawn is out of reach, so that a claim that is good stays true; and a
/// frame that nobody has a way to is touched by nobody. All that is asked for holds at power-on.
pub fn ways_law()
    ensures in_turn { CallsAddNoWay }
    ensures made { MadeAccessesHadWays }
    ensures quiet { QuietStaysQuiet }
    ensures claims { GoodClaimsHold }
    ensures free { FreeStaysFree }
    ensures begins { BeginsSafe }
{}
