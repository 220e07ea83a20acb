// What holds of every slot of a sound table, whether or not a start leads to it: each station's slot goes through, what the stations
// transmit makes the row that is read, and no counter passes its limit. No functions.

#![tactic(auto)]
