// What is sent arrives: theorems that go through several rooms. No code of its own.
#![tactic(auto)]
