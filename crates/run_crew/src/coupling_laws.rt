//! Lemmas: the coupling invariants of queues, applications, stores and arrivals from what their
//! actors did. The functions have no code.
ghost use Rattle.run_crew.specs.ApplicationCoupling.{ApplicationsAreCoupled};
ghost use Rattle.run_crew.specs.ArrivalLaws.{WireKeepsCoupling};
ghost use Rattle.run_crew.specs.QueueCoupling.{PollersAreCoupled};
ghost use Rattle.run_crew.specs.StoreCoupling.{StoresAreMeantByEach, WorkersStoresAreMeant};

/// Lemma: the record of a poller over the turns of its seat gives the coupling invariants of its
/// queue at the closing of the board: hashes, the settings that its turns know, choices by its own
/// table, what was wanted, and the marks of its packets.
pub fn pollers_are_coupled()
    ensures { PollersAreCoupled }
{}

/// Lemma: the record of an application with an empty hand gives its coupling invariants at the
/// closing of the boards: where it found each packet, the maps that its turns know and the queues
/// that they pick, choices by its own table, the queues, processors and writes by what was loaded
/// and read, and the reply for whose packet each write was made.
pub fn applications_are_coupled()
    ensures { ApplicationsAreCoupled }
{}

/// Lemma: the stores of a worker's seat, which were for turns, marks and writes of the seat, give
/// the coupling invariant of stores for this seat, and what the seat had found before each; the
/// coupling invariants for each seat give that for all.
pub fn stores_are_meant()
    ensures worker { WorkersStoresAreMeant }
    ensures each { StoresAreMeantByEach }
{}

/// Lemma: what the wire did gives its coupling invariants at the closing: it announced the packets
/// in turn.
pub fn the_wire_keeps_its_coupling()
    ensures { WireKeepsCoupling }
{}
