// No code: schedules, the numbering of situations by first schedules, and the queue that finds them, over any type of
// situations. Main results: entries_by_queue (Entries), same_first_visits (Numbered), prefix_of_first_schedule
// (Prefixes), closed_has_all, found_is_first, full_with_more and along_places (Verdicts).
#![tactic(auto)]
