//! Laws of the machine. The functions do nothing: each carries a law as its contract.

ghost use Rattle.zcore_versions.specs.Laws.{EveryTurnOfAnyVersionEnds, LateVersionsAreStandard};
ghost use Rattle.zcore_versions.specs.Laws.{KeepsWhatTheProfileStepsElsewhere, WaitsForWhatCanBeGiven};

/// Every turn ends, and in one way, within the weight of its beginning.
pub fn every_turn_of_any_version_ends()
    ensures { EveryTurnOfAnyVersionEnds }
{}

/// In versions 5 and 8 the machine is the Standard's.
pub fn late_versions_are_standard()
    ensures { LateVersionsAreStandard }
{}

/// Where the version reads an opcode as version 5 does, a step of the profile that meets no fault is a
/// step of this machine.
pub fn keeps_what_the_profile_steps_elsewhere()
    ensures { KeepsWhatTheProfileStepsElsewhere }
{}

/// What a step waits for can be given: a key, or a line that has room in the text buffer of the version.
pub fn waits_for_what_can_be_given()
    ensures { WaitsForWhatCanBeGiven }
{}
