// The order of a schedule message's descriptions: theorems on what the rooms of schedules read. No code of its own.
#![tactic(auto)]
