// What holds over any number of requests, and the bench cards: theorems about the promises of the requests, with no code of its own.
#![tactic(auto)]
