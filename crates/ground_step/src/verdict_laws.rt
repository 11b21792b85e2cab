//! Laws of failures and verdicts, for readers of the contracts. Each function does nothing; its contract is the law.
ghost use Rattle.ground_step.specs.VerdictLaws.{
  FirstMissesShow,
  FirstRightsShow,
  FirstTestsShow,
  RightVerdictsAreVerdicts,
  WitnessedLeftsFail,
  WitnessedRightsFail,
  WitnessedRightsMiss,
  WitnessedTestsHold,
};

/// Where a failure witnesses a test, or that one side has a cut successor without a partner, this is so at the failure's point.
pub fn witnesses_hold()
    ensures tests { WitnessedTestsHold }
    ensures rights { WitnessedRightsFail }
    ensures right_misses { WitnessedRightsMiss }
    ensures lefts { WitnessedLeftsFail }
{}

/// Where no point before fails, and no earlier test holds at the failure's point, a witness shows the verdict.
pub fn first_witnesses_show()
    ensures tests { FirstTestsShow }
    ensures rights { FirstRightsShow }
    ensures misses { FirstMissesShow }
{}

/// The kind of a right verdict, with its point and its side, is the verdict of the problem.
pub fn right_verdicts_are_verdicts()
    ensures { RightVerdictsAreVerdicts }
{}
