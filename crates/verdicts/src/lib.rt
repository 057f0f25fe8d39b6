// The numbering of a program's situations, the verdict, the reports by it, all that is promised of a report, and
// document 01's cases: definitions, and the one type that code shares with them. Main results: verdict_by_search and
// longer_schedules_decide_alike (SearchLaws), closed_keeps_claims and found_is_not_robust (Promises), found_is_earliest
// (Earliest), checked (Kept), wanted_gets_not_robust and shorter_wants_the_same (CallAgain), never_short (LongTrace),
// every_case_holds (EveryCase).
#![tactic(auto)]

use rules::Ending;

// What the checker has to say of a program. The thread of an ending is numbered from 0; what is printed counts from 1.
#[derive(Clone, Copy)]
pub enum Report {
    Robust {
        count: usize,
    },
    // So many steps lead to what ended the search. An ending by a witness is NR.
    Ended {
        count: usize,
        steps: usize,
        ending: Ending,
    },
    Full {
        count: usize,
    },
    // Check 10: the trace is too short, and just so many bytes are wanted.
    Short {
        wanted: usize,
    },
    // The number of the check that failed, and not a Refusal: the definition has a report for every outcome of reading,
    // whatever its number.
    Refused {
        number: u8,
    },
}
