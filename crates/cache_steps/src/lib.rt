// One work word after another: from the directory's promises and the bytes moved to the promise of a batch. specs/.
#![tactic(auto)]
