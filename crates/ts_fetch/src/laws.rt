//! What holds of fetches by a plan, whatever the judge and the plan are. The calls do nothing.
ghost use Rattle.ts_fetch.specs.PlanLaws.{StartsWell, AsksParts, GoesOn, PlanLooks, PlanPays, PlanOwn, BreaksAtLesser};
ghost use Rattle.ts_fetch.specs.PlanCodecs.{GoesByPlan, TakesJudged, BreaksJudged, TakesAtOnce, TakesJudgedIn};

use crate::fetching::TileFetch;
use crate::judging::Judge;
use ts_actor::Pieces;

/// A fetch of a fragment that is held, by a plan that is right about it, asks for parts that are held,
/// goes on well when it is told what is held, and ends with what the judge finds in those ranges.
pub fn fetches_find_what_is_held<J: Judge>()
    ensures starts { StartsWell J.judge }
    ensures asks { AsksParts J.judge }
    ensures goes { GoesOn J.judge }
{}

/// Whatever replies come, a fetch asks for nothing but gets and sizes of parts of its own fragment, and
/// each get is one of those that were planned.
pub fn fetches_keep_to_their_plan<J: Judge>()
    ensures looks { PlanLooks J.judge }
    ensures pays { PlanPays J.judge }
    ensures own { PlanOwn J.judge }
{}

/// A told size other than the stated one is damage at the lesser of the two.
pub fn other_sizes_are_broken<J: Judge>()
    ensures { BreaksAtLesser J.judge }
{}

/// Where the fetches of a way to write fragments go by plans, they end with what the judge says of the
/// ranges of the whole plan, or with a told size that is another than the stated one.
pub fn fetches_tell_what_the_judge_says<J: Judge, P: Pieces<Fetch = TileFetch<J>>>()
    requires { GoesByPlan J.judge P.codec }
    ensures takes { TakesJudged J.judge P.codec }
    ensures breaks { BreaksJudged J.judge P.codec }
    ensures once { TakesAtOnce J.judge P.codec }
    ensures inside { TakesJudgedIn J.judge P.codec }
{}
