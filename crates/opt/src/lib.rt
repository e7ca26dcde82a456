// Definitions and theory only: OPT, the schemes that it is compared with, and the plain stack among them.
#![tactic(auto)]
