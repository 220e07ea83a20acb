// The constant tables of a pattern's upper and lower half (six digits each), by which its index is found from its word.

// How many patterns have a smaller upper half (the six higher digits) than h.
pub const BEFORE: [u16; 64] = [
    0, 1, 7, 13, 28, 34, 49, 64, 84, 90, 105, 120, 140, 155, 175, 195, 210, 216, 231, 246, 266,
    281, 301, 321, 336, 351, 371, 391, 406, 426, 441, 456, 462, 468, 483, 498, 518, 533, 553, 573,
    588, 603, 623, 643, 658, 678, 693, 708, 714, 729, 749, 769, 784, 804, 819, 834, 840, 860, 875,
    890, 896, 911, 917, 923,
];

// How many numbers of six digits below l have as many ones as l.
pub const RANK: [u16; 64] = [
    0, 0, 1, 0, 2, 1, 2, 0, 3, 3, 4, 1, 5, 2, 3, 0, 4, 6, 7, 4, 8, 5, 6, 1, 9, 7, 8, 2, 9, 3, 4, 0,
    5, 10, 11, 10, 12, 11, 12, 5, 13, 13, 14, 6, 15, 7, 8, 1, 14, 16, 17, 9, 18, 10, 11, 2, 19, 12,
    13, 3, 14, 4, 5, 0,
];
