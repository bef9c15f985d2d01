// Document 01's rows P1 to P13 as one list with one proved statement over it. There is no code here.
#![tactic(auto)]
