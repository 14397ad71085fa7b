// Traces and sessions on whole disks, computed (specs/).
#![tactic(auto)]
