//! Words with which the report is an object, or the script another one.

use crate::tests::Row;

// A tenant with ways for itself beside a neighbour, with a command that is refused and a count of lines.
const A_TENANT_AND_A_NEIGHBOUR: &str =
    "machine sets=1 ways=4\ntasks 1-2\nphase\nthread\nmkdir /tenant\nwrite /tenant/schemata L3:0=3\nwrite /schemata L3:0=c\nwrite /tenant/mode exclusive\nwrite /tenant/tasks 1\nwrite /schemata L3:0=e\nread /info/last_cmd_status\nflush\naccess 1 0 0\naccess 1 0 64\naccess 2 0 128\naccess 1 0 0\naccess 1 0 64\nread /tenant/mon_data/mon_L3_00/llc_occupancy\n";

pub(crate) const ROWS: [Row; 4] = [
    (
        &["step", "--json", "--quiet"],
        "machine sets=1 ways=4
tasks 1
phase
thread
access 1 0 0
access 1 0 64
access 1 0 128
access 1 0 0
",
        "{\"domains\":[{\"domain\":0,\"places\":4,\"rmids\":[{\"lines\":3,\"rmid\":0}],\"valid\":3}],\"groups\":[{\"accesses\":4,\"gid\":0,\"hits\":1,\"misses\":3,\"path\":\"/\"}],\"total\":{\"accesses\":4,\"commands\":0,\"hits\":1,\"misses\":3,\"refused\":0}}
",
    ),
    // The script of `gen` is played in the place of what the source holds.
    (
        &["gen", "1", "--quiet"],
        "machine sets=1 ways=4
tasks 1
phase
thread
access 1 0 0
access 1 0 64
access 1 0 128
access 1 0 0
",
        "group 0 /: accesses 0 hits 0 misses 0
group 1 /g1: accesses 2 hits 0 misses 2
group 2 /g2: accesses 2 hits 0 misses 2
domain 0: valid 2 of 4096, rmid 1 1, rmid 2 1
domain 1: valid 2 of 4096, rmid 1 1, rmid 2 1
total: commands 9 refused 0 accesses 4 hits 0 misses 4
",
    ),
    // All of a run is told: a tenant with ways for itself, a neighbour, a refusal and a count of lines.
    (
        &["step", "--windows", "--journal"],
        A_TENANT_AND_A_NEIGHBOUR,
        "0 0.0 mkdir /tenant: ok\n1 0.1 write /tenant/schemata L3:0=3: ok\n2 0.2 write /schemata L3:0=c: ok\n3 0.3 write /tenant/mode exclusive: ok\n4 0.4 write /tenant/tasks 1: ok\n5 0.5 write /schemata L3:0=e: EINVAL overlaps with exclusive group\n6 0.6 read /info/last_cmd_status: ok\n|overlaps with exclusive group\n7 0.7 flush: ok\n8 0.13 read /tenant/mon_data/mon_L3_00/llc_occupancy: ok\n|128\nslice 0.0\n0 0.1 e2 raise\n1 0.2 e3 raise\n2 0.3 e4 raise\n3 0.7 e8 flush\n4 0.8 e8 access group 1 rmid 1 mask 3 set 0 line 0 fill way 0\n5 0.9 e8 access group 1 rmid 1 mask 3 set 0 line 1 fill way 1\n6 0.10 e8 access group 0 rmid 0 mask c set 0 line 2 fill way 2\n7 0.11 e8 access group 1 rmid 1 mask 3 set 0 line 0 hit way 0\n8 0.12 e8 access group 1 rmid 1 mask 3 set 0 line 1 hit way 1\n9 0.13 e8 look rmid 1 lines 2\nwindow 0.0 group 1 ways 2 from 3: accesses 4 hits 2 covered 4 hits 2 private 2\ngroup 0 /: accesses 1 hits 0 misses 1\ngroup 1 /tenant: accesses 4 hits 2 misses 2\ndomain 0: valid 3 of 4, rmid 0 1, rmid 1 2\ntotal: commands 9 refused 1 accesses 5 hits 2 misses 3\n",
    ),
    // All of a run is told: a tenant with ways for itself, a neighbour, a refusal and a count of lines.
    (
        &["step", "--json", "--journal", "--windows"],
        A_TENANT_AND_A_NEIGHBOUR,
        "{\"commands\":[{\"at\":0,\"op\":0,\"result\":\"ok\",\"thread\":0,\"words\":\"mkdir /tenant\"},{\"at\":1,\"op\":1,\"result\":\"ok\",\"thread\":0,\"words\":\"write /tenant/schemata L3:0=3\"},{\"at\":2,\"op\":2,\"result\":\"ok\",\"thread\":0,\"words\":\"write /schemata L3:0=c\"},{\"at\":3,\"op\":3,\"result\":\"ok\",\"thread\":0,\"words\":\"write /tenant/mode exclusive\"},{\"at\":4,\"op\":4,\"result\":\"ok\",\"thread\":0,\"words\":\"write /tenant/tasks 1\"},{\"at\":5,\"op\":5,\"result\":\"EINVAL overlaps with exclusive group\",\"thread\":0,\"words\":\"write /schemata L3:0=e\"},{\"at\":6,\"op\":6,\"result\":\"ok\",\"text\":[\"overlaps with exclusive group\"],\"thread\":0,\"words\":\"read /info/last_cmd_status\"},{\"at\":7,\"op\":7,\"result\":\"ok\",\"thread\":0,\"words\":\"flush\"},{\"at\":8,\"op\":13,\"result\":\"ok\",\"text\":[\"128\"],\"thread\":0,\"words\":\"read /tenant/mon_data/mon_L3_00/llc_occupancy\"}],\"domains\":[{\"domain\":0,\"places\":4,\"rmids\":[{\"lines\":1,\"rmid\":0},{\"lines\":2,\"rmid\":1}],\"valid\":3}],\"groups\":[{\"accesses\":1,\"gid\":0,\"hits\":0,\"misses\":1,\"path\":\"/\"},{\"accesses\":4,\"gid\":1,\"hits\":2,\"misses\":2,\"path\":\"/tenant\"}],\"journal\":[{\"domain\":0,\"entries\":[\"0 0.1 e2 raise\",\"1 0.2 e3 raise\",\"2 0.3 e4 raise\",\"3 0.7 e8 flush\",\"4 0.8 e8 access group 1 rmid 1 mask 3 set 0 line 0 fill way 0\",\"5 0.9 e8 access group 1 rmid 1 mask 3 set 0 line 1 fill way 1\",\"6 0.10 e8 access group 0 rmid 0 mask c set 0 line 2 fill way 2\",\"7 0.11 e8 access group 1 rmid 1 mask 3 set 0 line 0 hit way 0\",\"8 0.12 e8 access group 1 rmid 1 mask 3 set 0 line 1 hit way 1\",\"9 0.13 e8 look rmid 1 lines 2\"],\"slice\":0}],\"total\":{\"accesses\":5,\"commands\":9,\"hits\":2,\"misses\":3,\"refused\":1},\"windows\":[{\"accesses\":4,\"covered\":4,\"covered_hits\":2,\"domain\":0,\"from\":3,\"gid\":1,\"hits\":2,\"private\":2,\"slice\":0,\"ways\":2}]}\n",
    ),
];
