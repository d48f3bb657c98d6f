//! Reports of journals. Those of the tenant are the simulator's, which were worked out by hand (`simulator_tests`, `flags`).

use crate::replays::{CIRCLE, RACE, told_by};
use call_rim::Status;
use std::test::Fail;

// A tenant with ways for itself beside a neighbour, with a command that is refused and a count of lines.
const TENANT: &str = "machine sets=1 ways=4
tasks 1-2
phase
thread
mkdir /tenant
write /tenant/schemata L3:0=3
write /schemata L3:0=c
write /tenant/mode exclusive
write /tenant/tasks 1
write /schemata L3:0=e
read /info/last_cmd_status
flush
access 1 0 0
access 1 0 64
access 2 0 128
access 1 0 0
access 1 0 64
read /tenant/mon_data/mon_L3_00/llc_occupancy
journal 1
tree 0 0 0 0 0
tree 0 1 0 0 0
tree 0 2 0 0 0
tree 0 3 0 0 0
tree 0 4 0 0 0
tree 0 5 20 0 0
tree 0 6 0 0 0
tree 0 7 0 0 0
tree 0 13 0 0 1 2
slice 0 0 10
raise 0 1 2
raise 0 2 3
raise 0 3 4
flush 0 7 8
access 0 8 8 1 1 3 0 0 0
access 0 9 8 1 1 3 1 0 1
access 0 10 8 0 0 12 2 0 2
access 0 11 8 1 1 3 0 1 0
access 0 12 8 1 1 3 1 1 1
look 0 13 8 1 2
end
";

// All that is told of it, in lines.
const TENANT_IN_LINES: &str = "0 0.0 mkdir /tenant: ok
1 0.1 write /tenant/schemata L3:0=3: ok
2 0.2 write /schemata L3:0=c: ok
3 0.3 write /tenant/mode exclusive: ok
4 0.4 write /tenant/tasks 1: ok
5 0.5 write /schemata L3:0=e: EINVAL overlaps with exclusive group
6 0.6 read /info/last_cmd_status: ok
|overlaps with exclusive group
7 0.7 flush: ok
8 0.13 read /tenant/mon_data/mon_L3_00/llc_occupancy: ok
|128
slice 0.0
0 0.1 e2 raise
1 0.2 e3 raise
2 0.3 e4 raise
3 0.7 e8 flush
4 0.8 e8 access group 1 rmid 1 mask 3 set 0 line 0 fill way 0
5 0.9 e8 access group 1 rmid 1 mask 3 set 0 line 1 fill way 1
6 0.10 e8 access group 0 rmid 0 mask c set 0 line 2 fill way 2
7 0.11 e8 access group 1 rmid 1 mask 3 set 0 line 0 hit way 0
8 0.12 e8 access group 1 rmid 1 mask 3 set 0 line 1 hit way 1
9 0.13 e8 look rmid 1 lines 2
window 0.0 group 1 ways 2 from 3: accesses 4 hits 2 covered 4 hits 2 private 2
group 0 /: accesses 1 hits 0 misses 1
group 1 /tenant: accesses 4 hits 2 misses 2
domain 0: valid 3 of 4, rmid 0 1, rmid 1 2
total: commands 9 refused 1 accesses 5 hits 2 misses 3
";

// The same as an object.
const TENANT_AS_AN_OBJECT: &str =
    "{\"commands\":[{\"at\":0,\"op\":0,\"result\":\"ok\",\"thread\":0,\"words\":\"mkdir /tenant\"},{\"at\":1,\"op\":1,\"result\":\"ok\",\"thread\":0,\"words\":\"write /tenant/schemata L3:0=3\"},{\"at\":2,\"op\":2,\"result\":\"ok\",\"thread\":0,\"words\":\"write /schemata L3:0=c\"},{\"at\":3,\"op\":3,\"result\":\"ok\",\"thread\":0,\"words\":\"write /tenant/mode exclusive\"},{\"at\":4,\"op\":4,\"result\":\"ok\",\"thread\":0,\"words\":\"write /tenant/tasks 1\"},{\"at\":5,\"op\":5,\"result\":\"EINVAL overlaps with exclusive group\",\"thread\":0,\"words\":\"write /schemata L3:0=e\"},{\"at\":6,\"op\":6,\"result\":\"ok\",\"text\":[\"overlaps with exclusive group\"],\"thread\":0,\"words\":\"read /info/last_cmd_status\"},{\"at\":7,\"op\":7,\"result\":\"ok\",\"thread\":0,\"words\":\"flush\"},{\"at\":8,\"op\":13,\"result\":\"ok\",\"text\":[\"128\"],\"thread\":0,\"words\":\"read /tenant/mon_data/mon_L3_00/llc_occupancy\"}],\"domains\":[{\"domain\":0,\"places\":4,\"rmids\":[{\"lines\":1,\"rmid\":0},{\"lines\":2,\"rmid\":1}],\"valid\":3}],\"groups\":[{\"accesses\":1,\"gid\":0,\"hits\":0,\"misses\":1,\"path\":\"/\"},{\"accesses\":4,\"gid\":1,\"hits\":2,\"misses\":2,\"path\":\"/tenant\"}],\"journal\":[{\"domain\":0,\"entries\":[\"0 0.1 e2 raise\",\"1 0.2 e3 raise\",\"2 0.3 e4 raise\",\"3 0.7 e8 flush\",\"4 0.8 e8 access group 1 rmid 1 mask 3 set 0 line 0 fill way 0\",\"5 0.9 e8 access group 1 rmid 1 mask 3 set 0 line 1 fill way 1\",\"6 0.10 e8 access group 0 rmid 0 mask c set 0 line 2 fill way 2\",\"7 0.11 e8 access group 1 rmid 1 mask 3 set 0 line 0 hit way 0\",\"8 0.12 e8 access group 1 rmid 1 mask 3 set 0 line 1 hit way 1\",\"9 0.13 e8 look rmid 1 lines 2\"],\"slice\":0}],\"total\":{\"accesses\":5,\"commands\":9,\"hits\":2,\"misses\":3,\"refused\":1},\"windows\":[{\"accesses\":4,\"covered\":4,\"covered_hits\":2,\"domain\":0,\"from\":3,\"gid\":1,\"hits\":2,\"private\":2,\"slice\":0,\"ways\":2}]}\n";

// Without its commands and entries.
const TENANT_IN_SHORT: &str =
    "window 0.0 group 1 ways 2 from 3: accesses 4 hits 2 covered 4 hits 2 private 2
group 0 /: accesses 1 hits 0 misses 1
group 1 /tenant: accesses 4 hits 2 misses 2
domain 0: valid 3 of 4, rmid 0 1, rmid 1 2
total: commands 9 refused 1 accesses 5 hits 2 misses 3
";

// The race as it was seen: the second thread fills, and the first one hits. Played by no order of its own, the first thread would fill.
const RACE_WITH_ENTRIES: &str = "slice 0.0
0 1.0 e0 access group 0 rmid 0 mask f set 0 line 0 fill way 0
1 0.0 e0 access group 0 rmid 0 mask f set 0 line 0 hit way 0
group 0 /: accesses 2 hits 1 misses 1
domain 0: valid 1 of 4, rmid 0 1
total: commands 0 refused 0 accesses 2 hits 1 misses 1
";

// Journals that are a run have a report, though they have no order: two fills in each slice of two sets.
const CIRCLE_REPORT: &str = "group 0 /: accesses 4 hits 0 misses 4
domain 0: valid 4 of 8, rmid 0 4
total: commands 0 refused 0 accesses 4 hits 0 misses 4
";

const REPORTS: [(&'static [&'static str], &'static str, &'static str); 6] = [
    (
        &["report", "--windows", "--journal"],
        TENANT,
        TENANT_IN_LINES,
    ),
    (
        &["report", "--json", "--journal", "--windows"],
        TENANT,
        TENANT_AS_AN_OBJECT,
    ),
    (&["report", "--quiet", "--windows"], TENANT, TENANT_IN_SHORT),
    (&["report", "--journal"], RACE, RACE_WITH_ENTRIES),
    (&["report"], CIRCLE, CIRCLE_REPORT),
    (
        &["report", "--json", "--quiet"],
        RACE,
        "{\"domains\":[{\"domain\":0,\"places\":4,\"rmids\":[{\"lines\":1,\"rmid\":0}],\"valid\":1}],\"groups\":[{\"accesses\":2,\"gid\":0,\"hits\":1,\"misses\":1,\"path\":\"/\"}],\"total\":{\"accesses\":2,\"commands\":0,\"hits\":1,\"misses\":1,\"refused\":0}}\n",
    ),
];

#[test]
fn journals_have_their_reports(rt: HostRuntime) -> Result<(), Fail> {
    for (texts, input, report) in REPORTS {
        let (status, code, taken) = told_by(rt.alloc(), texts, input, &[], &[])?;
        assert_eq!(rt; status, Status::Done, "{report}");
        assert_eq!(rt; code, 0, "{report}");
        assert_eq!(rt; taken.as_slice(), report.as_bytes(), "{report}");
    }
    Ok(())
}
