// Every sound table is shown by some plain channel, so all that is proved from a start holds from any sound table. No functions.

#![tactic(auto)]
