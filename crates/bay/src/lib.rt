// No code: the demands over whole runs of the controller's table.
#![tactic(auto)]
