//! What `join` lines are answered, and which of them are bad.

use super::check_run;

#[rattlefmt::skip]
static JOINED: [(&[u8], &str, u8); 8] = [
    // input                                              output                                      status
    (b"join a=1 c=2 / b=3 c=4\njoin /\njoin a=1 a=2 /\n", "a=l:1 b=r:3 c=b:2:4\n-\nline 3: bad\n",   2),
    (b"join / a=1\njoin a10=1 a9=2 /\n",                  "a=r:1\na10=l:1 a9=l:2\n",                  0),
    (b"  join  0=a  z=b  /  0=c  ",                       "0=b:a:c z=l:b\n",                          0),
    (b"join a=1\njoin a=1 / a=2 /\n",                     "line 1: bad\nline 2: bad\n",               2),
    (b"join b=1 a=2 /\njoin a= /\n",                      "line 1: bad\nline 2: bad\n",               2),
    (b"join a=1 a=2 /\njoin / a=1 a=2\n",                 "line 1: bad\nline 2: bad\n",               2),
    (b"join =1 /\njoin a /\njoin a=1=2 /\n",              "line 1: bad\nline 2: bad\nline 3: bad\n",  2),
    (b"join a=1/ b=2\njoin A=1 /\njoin\n",                "line 1: bad\nline 2: bad\nline 3: bad\n",  2),
];

/// Lines that join two lists of entries have each key once with its values; lists whose keys do not strictly increase are bad lines.
#[test]
fn answers_joins(rt: HostRuntime) {
    for (input, output, status) in JOINED {
        check_run(&rt, rt.alloc(), input, output, status, usize::MAX);
    }
}
