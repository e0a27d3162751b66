// Numbers executed as tokens: what lies there, in an open entry or in a closed one.
use super::trying::rows_hold;
use line_bench::end::End::{Fault, Finished};
use session_bench::sessions::Row;

static TOKENS: &[Row] = &[
    (": Y (LIT) [ 1624 EXECUTE", Fault(22, 17, 7), 6, "", ""),
    (": Y 7 [ 1624 EXECUTE", Fault(22, 13, 7), 7, "", ""),
    (": Y 203 [ 1630 EXECUTE", Fault(22, 15, 7), 5, "", ""),
    (": Y 202 [ 1630 EXECUTE", Fault(22, 15, 7), 5, "", ""),
    (": Y 205 5 [ 1630 EXECUTE", Fault(22, 17, 7), 7, "", ""),
    (
        ": Y 204 0 0 0 0 [ 1630 EXECUTE",
        Fault(22, 23, 7),
        9,
        "",
        "",
    ),
    (": Y 201 [ 1630 EXECUTE", Fault(22, 15, 7), 6, "", ""),
    (": Y 200 [ 1630 EXECUTE", Fault(22, 15, 7), 5, "", ""),
    (": Y 106 [ 1630 EXECUTE", Fault(22, 15, 7), 5, "", ""),
    (": Y 206 0 0 [ 1630 EXECUTE", Fault(22, 19, 7), 7, "", ""),
    (": Y (.\") [ 1624 EXECUTE", Fault(22, 16, 7), 6, "", ""),
    (
        ": X 205 0 ; 1630 EXECUTE 7",
        Finished,
        8,
        "",
        "1510 7 DP: 1638 NEWEST: 1620",
    ),
    (
        ": X 202 5 ; 1630 EXECUTE",
        Finished,
        7,
        "",
        "1510 DP: 1638 NEWEST: 1620",
    ),
    (
        ": X 203 5 ; 1630 EXECUTE",
        Finished,
        7,
        "",
        "5 DP: 1638 NEWEST: 1620",
    ),
    (
        "VOCABULARY B FORTH : X 5 ; 1624 EXECUTE",
        Finished,
        8,
        "",
        "DP: 1654 NEWEST: 1640 VOC-LINK: 1636 CONTEXT: 1628",
    ),
    (
        "VOCABULARY B : X 5 ; FORGET B 1624 EXECUTE",
        Fault(22, 35, 7),
        7,
        "",
        "",
    ),
    (
        "VOCABULARY B FORGET B : X 204 0 0 0 0 0 0 0 ; 1630 EXECUTE",
        Fault(22, 51, 7),
        14,
        "",
        "DP: 1662 NEWEST: 1620",
    ),
    (
        ": X 1 IF [ 1624 EXECUTE ] THEN ; X",
        Fault(22, 16, 7),
        9,
        "",
        "",
    ),
    (
        ": X 0 IF [ 1624 EXECUTE ] 5 THEN ;",
        Finished,
        13,
        "",
        "DP: 1642 NEWEST: 1620",
    ),
];

#[test]
fn tokens(rt: HostRuntime) {
    rows_hold(&rt, TOKENS);
}
