// A window with the domain's own bits is as none, for every call (specs/WholeLaws.antt). There is no code here.
#![tactic(auto)]
