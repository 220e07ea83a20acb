// The constant tables of the lower halves (six digits each), by which a pattern's word is found from its index.

// The numbers of six digits, by how many ones they have, then rising.
pub const LOWER: [u8; 64] = [
    0, 1, 2, 4, 8, 16, 32, 3, 5, 6, 9, 10, 12, 17, 18, 20, 24, 33, 34, 36, 40, 48, 7, 11, 13, 14,
    19, 21, 22, 25, 26, 28, 35, 37, 38, 41, 42, 44, 49, 50, 52, 56, 15, 23, 27, 29, 30, 39, 43, 45,
    46, 51, 53, 54, 57, 58, 60, 31, 47, 55, 59, 61, 62, 63,
];

// Where the lower halves that go with an upper half of n ones begin among them.
pub const FIRST: [u16; 7] = [63, 57, 42, 22, 7, 1, 0];
