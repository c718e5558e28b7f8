// The marked cases of document 01, proved of the rules: nothing runs here.
#![tactic(auto)]
