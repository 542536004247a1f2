// What is demanded of the RKC line has no code of its own: it is claimed of the link, which stands in `rkc`.
#![tactic(auto)]
