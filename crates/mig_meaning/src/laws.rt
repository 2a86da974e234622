// Laws of runs. Each is the contract of a function that does nothing.
ghost use Rattle.mig_meaning.specs.Law.{RenamingLaw};
ghost use Rattle.mig_meaning.specs.Losing.{LostRow, OtherKey};
ghost use Rattle.mig_meaning.specs.Meeting.{EquivalenceLaw, MeetingLaw};
ghost use Rattle.mig_meaning.specs.States.{StateLaw};
ghost use Rattle.mig_meaning.specs.Worked.{SetRun, DeleteRun, BothTablesRun, CasesRun, ProductOrder};

/// A renaming that gives different keys to any two different keys among those of the start state, the arguments and the supply commutes with every run.
pub fn renamings_commute()
    ensures { RenamingLaw }
{}

/// A typed function with labels up to 15, called with arguments that fit and 16 different keys, leads from a state over the schema to a state over the schema.
pub fn states_stay()
    ensures { StateLaw }
{}

/// Take two typed programs with the same functions, with labels up to 15 and no parameters of kind key, and a list of invariants. Let each pair of functions of one number keep all invariants and answer alike, from any two states over the schemas between which all invariants hold and which have none of the call's keys. Then from empty tables, for every list of well-formed calls and one supply of keys for both, each query answers the same bag by both programs, and every invariant holds after each call.
pub fn meeting_pairs_answer_alike()
    ensures { MeetingLaw }
{}

/// Such programs are equivalent: the same holds of any two supplies, the keys of the one renamed to those of the other.
pub fn meeting_pairs_are_equivalent()
    ensures { EquivalenceLaw }
{}

/// A program that loses a row, or that writes another key of its call, is not equivalent to one that does not.
pub fn losing_programs_differ()
    ensures row { LostRow }
    ensures key { OtherKey }
{}

/// Worked runs: a set through a join, a delete by a key, a delete from both tables of a join, a condition of three cases two of which are the same, and the order of the rows of a join.
pub fn worked_runs()
    ensures set { SetRun }
    ensures delete { DeleteRun }
    ensures both { BothTablesRun }
    ensures cases { CasesRun }
    ensures order { ProductOrder }
{}
