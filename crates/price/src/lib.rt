// What a budget makes of steps that are charged (specs/Price.antt). There is no code here.
#![tactic(auto)]
