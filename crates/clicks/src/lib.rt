// Clicks on the line (paper 02, T-01), on a listener and on a station: that number 2 never comes, what a click in a station's own minislot
// does, and that a station whose lone request was clicked asks again and is queued when it is heard alone. No functions.

#![tactic(auto)]
