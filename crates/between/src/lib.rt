// The eighths from a number up to another lie between the two (specs/BetweenLaws.antt). There is no code here.
#![tactic(auto)]
