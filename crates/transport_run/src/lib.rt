// What holds of a run of frames from fresh on: no key twice, a command answered once, and tables that are the maps of the source. It has no code.
#![tactic(auto)]
