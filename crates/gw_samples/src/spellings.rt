//! Objects as their bytes spell them, and the reports of their jobs.

/// `GENERATE 10 / ADVANCE 3 / TERMINATE 1` with termination count 2, which are 97 bytes. Its job is done after 14 steps.
pub const THREE_BLOCKS: &[u8] = b"\
    GPSO\0\x01\0\0\0\0\0\0\0\0\x02\0\0\x03\
    \x01\0\0\0\0\0\0\0\0\x0a\0\0\0\0\0\0\0\0\0\0\0\0\0\0\0\
    \x03\0\0\0\0\0\0\0\0\x03\0\0\0\0\0\0\0\0\0\
    \x02\0\0\0\0\0\0\0\0\x01\
    \0\x01\0\0\0\x01\0\0\0\x01\0\0\0\
    \0\0\0\x02\0\0\0\x01\0\0\0\x01";

/// The report of that job, once it is done.
pub const THREE_BLOCKS_REPORT: &[u8] = b"END Done CLOCK 23 STEPS 14 ENTRIES 6 COUNT 0\n\
BLOCK 1 GENERATE 2 0\nBLOCK 2 ADVANCE 2 0\nBLOCK 3 TERMINATE 2 0\n";

/// `GENERATE ,,,2 / QUEUE L / SEIZE F / DEPART L / ADVANCE 4 / RELEASE F / TERMINATE 1` with termination count 2. Its job is
/// done after 23 steps.
pub const QUEUEING: &[u8] = b"\
    GPSO\0\x01\0\0\0\0\0\0\0\0\x02\x02\x03\x01L\x01\x01F\0\x07\
    \x01\0\0\0\0\0\0\0\0\0\0\0\0\0\0\0\0\0\0\0\x01\0\0\0\x02\0\0\0\0\
    \x08\0\0\0\0\0\x01\
    \x04\0\x01\
    \x09\0\0\0\0\0\x01\
    \x03\0\0\0\0\0\0\0\0\x04\0\0\0\0\0\0\0\0\0\
    \x05\0\x01\
    \x02\0\0\0\0\0\0\0\0\x01\
    \0\x01\0\0\0\
    \x01\0\0\0\
    \x01\0\0\x01\0\0\0\0\0\x01\
    \x01\0\x01\0\x01\x01\0\0\0\0\0\x01\
    \x01\0\x01\0\x01\0\
    \x01\0\x01\0\x01\0\
    \x01\0\0\0\
    \0\0\0\x05\0\0\0\x04\0\0\0\x03\0\0\0\x02\0\0\0\x01\0\0\0\x02\0\0\0\x01";

/// The report of that job, once it is done.
pub const QUEUEING_REPORT: &[u8] = b"END Done CLOCK 8 STEPS 23 ENTRIES 14 COUNT 0\n\
BLOCK 1 GENERATE 2 0\nBLOCK 2 QUEUE 2 0\nBLOCK 3 SEIZE 2 0\nBLOCK 4 DEPART 2 0\n\
BLOCK 5 ADVANCE 2 0\nBLOCK 6 RELEASE 2 0\nBLOCK 7 TERMINATE 2 0\n\
QUEUE L CONTENT 0 MAX 1 ENTRIES 2 AVG 0.500\nFACILITY F ENTRIES 2 OWNER 0 WAIT 0 UTIL 1.000\n";
