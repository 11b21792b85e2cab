//! Examples that are no data: values of definitions that no call answers. Each is proved, and nothing stands on them.
#![tactic(auto)]

ghost use Rattle.std.specs.Prelude.{◌≡◌};
ghost use Rattle.data_value.specs.Trials.{trial_word};

/// Words of trials, computed by their formula in another language: the trial, the place of the variable, and the width.
pub fn trial_words()
    ensures zero { trial_word 0 7 64 ≡ 0 }
    ensures all_ones { trial_word 1 7 64 ≡ 0xffffffffffffffff }
    ensures one { trial_word 2 7 64 ≡ 1 }
    ensures third { trial_word 3 0 64 ≡ 0x99feb499033aed61 }
    ensures last { trial_word 63 5 64 ≡ 0x6bb8a1356b094ab4 }
    ensures cut { trial_word 17 2 33 ≡ 0x75170508 }
{}
