//! Trapezoids, and their corners from outside.

/// A CTRAPEZOID of each kind after a CELL, and the corners that KLayout shows for it, at (1, 2).
pub(super) const KINDS: &str = "\
1a fb 01 02 00 64 1e 02 04=polygon 1 2 1 2 once: 1,2 1,32 71,32 101,2\n\
1a fb 01 02 01 64 1e 02 04=polygon 1 2 1 2 once: 1,2 1,32 101,32 71,2\n\
1a fb 01 02 02 64 1e 02 04=polygon 1 2 1 2 once: 1,2 31,32 101,32 101,2\n\
1a fb 01 02 03 64 1e 02 04=polygon 1 2 31 2 once: 31,2 1,32 101,32 101,2\n\
1a fb 01 02 04 64 1e 02 04=polygon 1 2 1 2 once: 1,2 31,32 71,32 101,2\n\
1a fb 01 02 05 64 1e 02 04=polygon 1 2 31 2 once: 31,2 1,32 101,32 71,2\n\
1a fb 01 02 06 64 1e 02 04=polygon 1 2 1 2 once: 1,2 31,32 101,32 71,2\n\
1a fb 01 02 07 64 1e 02 04=polygon 1 2 31 2 once: 31,2 1,32 71,32 101,2\n\
1a fb 01 02 08 1e 64 02 04=polygon 1 2 1 2 once: 1,2 1,102 31,72 31,2\n\
1a fb 01 02 09 1e 64 02 04=polygon 1 2 1 2 once: 1,2 1,72 31,102 31,2\n\
1a fb 01 02 0a 1e 64 02 04=polygon 1 2 1 2 once: 1,2 1,102 31,102 31,32\n\
1a fb 01 02 0b 1e 64 02 04=polygon 1 2 1 32 once: 1,32 1,102 31,102 31,2\n\
1a fb 01 02 0c 1e 64 02 04=polygon 1 2 1 2 once: 1,2 1,102 31,72 31,32\n\
1a fb 01 02 0d 1e 64 02 04=polygon 1 2 1 32 once: 1,32 1,72 31,102 31,2\n\
1a fb 01 02 0e 1e 64 02 04=polygon 1 2 1 2 once: 1,2 1,72 31,102 31,32\n\
1a fb 01 02 0f 1e 64 02 04=polygon 1 2 1 32 once: 1,32 1,102 31,72 31,2\n\
1a db 01 02 10 1e 02 04=polygon 1 2 1 2 once: 1,2 1,32 31,2\n\
1a db 01 02 11 1e 02 04=polygon 1 2 1 2 once: 1,2 1,32 31,32\n\
1a db 01 02 12 1e 02 04=polygon 1 2 1 2 once: 1,2 31,32 31,2\n\
1a db 01 02 13 1e 02 04=polygon 1 2 1 32 once: 1,32 31,32 31,2\n\
1a bb 01 02 14 1e 02 04=polygon 1 2 1 2 once: 1,2 31,32 61,2\n\
1a bb 01 02 15 1e 02 04=polygon 1 2 31 2 once: 31,2 1,32 61,32\n\
1a db 01 02 16 1e 02 04=polygon 1 2 1 2 once: 1,2 1,62 31,32\n\
1a db 01 02 17 1e 02 04=polygon 1 2 1 32 once: 1,32 31,62 31,2\n\
1a fb 01 02 18 64 1e 02 04=rectangle 1 2 100 30 1 2 once\n\
1a db 01 02 19 1e 02 04=rectangle 1 2 30 30 1 2 once";

/// TRAPEZOIDs after a CELL, and the corners that KLayout shows for them, at (1, 2).
pub(super) const TRAPEZOIDS: &str = "\
17 7b 01 02 64 28 00 0e 02 04=polygon 1 2 1 2 once: 1,2 1,42 101,42 94,2\n\
17 7b 01 02 64 28 00 0f 02 04=polygon 1 2 1 2 once: 1,2 1,42 94,42 101,2\n\
17 7b 01 02 64 28 14 00 02 04=polygon 1 2 1 2 once: 1,2 11,42 101,42 101,2\n\
17 7b 01 02 64 28 14 0e 02 04=polygon 1 2 1 2 once: 1,2 11,42 101,42 94,2\n\
17 7b 01 02 64 28 15 00 02 04=polygon 1 2 11 2 once: 11,2 1,42 101,42 101,2\n\
17 7b 01 02 64 28 15 0f 02 04=polygon 1 2 11 2 once: 11,2 1,42 94,42 101,2\n\
17 fb 01 02 64 28 00 0e 02 04=polygon 1 2 1 2 once: 1,2 1,42 101,35 101,2\n\
17 fb 01 02 64 28 00 0f 02 04=polygon 1 2 1 2 once: 1,2 1,35 101,42 101,2\n\
17 fb 01 02 64 28 14 00 02 04=polygon 1 2 1 12 once: 1,12 1,42 101,42 101,2\n\
17 fb 01 02 64 28 14 0e 02 04=polygon 1 2 1 12 once: 1,12 1,42 101,35 101,2\n\
17 fb 01 02 64 28 15 00 02 04=polygon 1 2 1 2 once: 1,2 1,42 101,42 101,12\n\
17 fb 01 02 64 28 15 0f 02 04=polygon 1 2 1 2 once: 1,2 1,35 101,42 101,12\n\
18 7b 01 02 64 28 14 02 04=polygon 1 2 1 2 once: 1,2 11,42 101,42 101,2\n\
18 fb 01 02 64 28 15 02 04=polygon 1 2 1 2 once: 1,2 1,42 101,42 101,12\n\
19 7b 01 02 64 28 0f 02 04=polygon 1 2 1 2 once: 1,2 1,42 94,42 101,2\n\
19 fb 01 02 64 28 0f 02 04=polygon 1 2 1 2 once: 1,2 1,35 101,42 101,2\n\
17 7b 01 02 64 28 00 00 02 04=rectangle 1 2 100 40 1 2 once\n\
17 fb 01 02 64 28 00 00 02 04=rectangle 1 2 100 40 1 2 once\n\
18 7b 01 02 0a 28 14 02 04=polygon 1 2 1 2 once: 1,2 11,42 11,2\n\
17 7b 01 02 0a 28 16 00 02 04=refused 109\n\
17 7b 01 02 0a 00 06 00 02 04=refused 109\n\
17 7b 01 02 00 28 00 00 02 04=refused 109\n\
17 3b 01 02 28 00 00 02 04=refused 18\n\
17 5b 01 02 64 00 00 02 04=refused 18";
