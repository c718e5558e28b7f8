// The whole path, bytes to answers: a configuration image and a run of event records.
#![tactic(auto)]
