// That a sound directory's words are fixed by what a batch promises and what it leaves open: specs/.
#![tactic(auto)]
