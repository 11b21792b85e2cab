//! Laws of questions, for readers of the contracts. Each function does nothing; its contract is the law.
ghost use Rattle.point_questions.specs.QuestionLaws.{
  FalsePointsAreVoid,
  ExcludedOutside,
  ExcludedLong,
  ExcludedHalted,
  ExcludedIsGrounded,
  ExcludedRightFailures,
  ExcludedRightMisses,
  ExcludedLeftFailures,
  TrueQuestionsShow,
};

/// Where no question can be true that asks whether the states of a point aren't in their cuts or whether runs stay outside of them or stop
/// there, the point is well grounded, as far as some valuation makes its condition true. Where none does, it is void.
pub fn excluded_points_are_grounded<N>()
    ensures void { FalsePointsAreVoid N }
    ensures outside { ExcludedOutside N }
    ensures long { ExcludedLong N }
    ensures halted { ExcludedHalted N }
    ensures grounded { ExcludedIsGrounded N }
{}

/// Where no question can be true that asks whether a cut successor has no partner, each has one.
pub fn excluded_points_match<N>()
    ensures right_fails { ExcludedRightFailures N }
    ensures right_misses { ExcludedRightMisses N }
    ensures left_fails { ExcludedLeftFailures N }
{}

/// A valuation that makes the formula of a question true shows what the question asks for.
pub fn true_questions_show<N>()
    ensures { TrueQuestionsShow N }
{}
