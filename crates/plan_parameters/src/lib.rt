// What page parameters with a zero half are in plans, for writer and checker. No code of its own.
#![tactic(auto)]
