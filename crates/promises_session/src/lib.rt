// What is promised of playing back a recorded session (specs/).
#![tactic(auto)]
