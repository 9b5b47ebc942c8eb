//! Laws of the machine. The functions do nothing: each carries a law as its contract. Those that compare
//! it with the profile's machine are of stories without alphabets of their own.

ghost use Rattle.zcore_versions.specs.StandardLaws.{EveryStandardTurnEnds, KeepsWhatTheProfileSteps};
ghost use Rattle.zcore_versions.specs.StandardLaws.{KeepsWhatTheProfilePlays, KeepsWhatTheProfileAnswers, KeepsWhatTheProfileRuns};
ghost use Rattle.zcore_versions.specs.Saves.{RestoresAllFrames, RestoresWhatWasKept};

/// Every turn of the Standard's machine ends, and in one way, within the weight of its beginning.
pub fn every_standard_turn_ends()
    ensures { EveryStandardTurnEnds }
{}

/// A step of the profile's machine that meets no fault is the Standard's step, and leaves windows,
/// dice and streams as they are. It does not wait while a stream is open or the upper window is there,
/// which the profile does not have.
pub fn keeps_what_the_profile_steps()
    ensures { KeepsWhatTheProfileSteps }
{}

/// A turn of the profile's machine that ends in no fault is the Standard's turn in the lower window:
/// the same text, memory, frames, place and program counter, with the window, the dice and the kept
/// states that it began with.
pub fn keeps_what_the_profile_plays()
    ensures { KeepsWhatTheProfilePlays }
{}

/// The same of the turn of a line that is given to a waiting machine.
pub fn keeps_what_the_profile_answers()
    ensures { KeepsWhatTheProfileAnswers }
{}

/// A run over lines in which the profile's machine meets no fault is the run of the Standard's
/// machine over the same memory and the same lines, turn by turn.
pub fn keeps_what_the_profile_runs()
    ensures { KeepsWhatTheProfileRuns }
{}

/// The state that a story kept last by `save_undo` is restored by `restore_undo`, whatever the present
/// state is.
pub fn restores_what_was_kept()
    ensures { RestoresWhatWasKept }
{}

/// All frames of a state that is kept are restored.
pub fn restores_all_frames()
    ensures { RestoresAllFrames }
{}
