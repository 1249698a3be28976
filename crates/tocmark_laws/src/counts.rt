//! Laws of the counts that a list of calls answers.

ghost use Rattle.std.specs.Prelude.{◌≡◌, ◌++◌, ◌∷◌, [], List, ℕ, Ok, Result, length};
ghost use Rattle.std.specs.List.{sum_by};
ghost use Rattle.tocmark_event.specs.declared.event.flags.ParserOptions.{ParserOptions};
ghost use Rattle.tocmark_event.specs.declared.options.Error.{Error};
ghost use Rattle.tocmark_state.specs.declared.work.Progress.{Progress};
ghost use Rattle.tocmark_laws.specs.Calls.{AddUpTo, AreCalls, all_pairs, pairs_of_first};
ghost use Rattle.tocmark_state.specs.Ranges.{Pair};
ghost use Rattle.tocmark_state.specs.Walk.{Rendering, nothing_yet, script, walk};

use tocmark_state::taker::Taker;

/// The counts of calls on one state over one source add up to those of one list. If all calls and `finish`
/// succeed, the sum of their events is the number of all events, and the sum of their bytes is the length of all
/// texts of the script of these events. If a call is refused, the counts of the calls before it add up to their
/// events and to the texts of the walk of these. This holds if each of these numbers is below 2^64, where counts stop.
pub fn counts_add_up<W: Taker>()
    ensures list { (how : Rendering) (flags : ParserOptions) (source : List ℕ)
        (calls : List (List Pair)) (w v : W) (counts : List Progress) (last : Progress)
        → AreCalls W.takes W.refuses how flags source [] calls w v counts (Ok last)
        → AddUpTo (length (all_pairs calls))
        (sum_by length (script how source (nothing_yet flags) (all_pairs calls)).texts)
        (counts ++ last ∷ []) }
    ensures calls { (how : Rendering) (flags : ParserOptions) (source : List ℕ)
        (calls : List (List Pair)) (w v : W) (counts : List Progress) (r : Result Progress Error)
        → AreCalls W.takes W.refuses how flags source [] calls w v counts r
        → AddUpTo (length (pairs_of_first (length counts) calls))
        (sum_by length
        (walk how source (nothing_yet flags) (pairs_of_first (length counts) calls)).texts)
        counts }
{}
