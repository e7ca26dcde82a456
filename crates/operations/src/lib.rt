// What each operation keeps: specs/.
#![tactic(auto)]
