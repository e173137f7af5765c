//! Scripts with what is due to them.

/// Scripts with their answers, each after its name.
pub(crate) const ANSWERED: [(&str, &str, &str); 16] = [
    (
        "one row",
        "shape 2 2\n\
session 1\n\
append a 0 2 3\n\
sig 0 1 0\n",
        "shape 2 2\n\
session 1\n\
1 done 1\n\
2 sig version 1 hits 0 misses 1 exps 1\n\
level 1 over 1 (1)=2 (2)=3\n\
level 2 over 2 (1,1)=4 (1,2)=6 (2,1)=6 (2,2)=9\n\
order 1,1,1\n\
versions 1\n",
    ),
    (
        "two rows in the order of time",
        "shape 2 2\n\
session 1\n\
append a 0 1 0\n\
append b 1/2 0 1\n\
sig 0 1 0\n",
        "shape 2 2\n\
session 1\n\
1 done 1\n\
2 done 2\n\
3 sig version 2 hits 0 misses 1 exps 2\n\
level 1 over 1 (1)=1 (2)=1\n\
level 2 over 2 (1,1)=1 (1,2)=2 (2,2)=1\n\
order 1,1,1,1\n\
versions 2\n",
    ),
    (
        "an empty interval",
        "shape 2 2\n\
session 1\n\
append a 0 2 3\n\
sig 1 1 0\n",
        "shape 2 2\n\
session 1\n\
1 done 1\n\
2 sig version 1 hits 0 misses 0 exps 0\n\
level 1 over 1\n\
level 2 over 2\n\
order 1,1\n\
versions 1\n",
    ),
    (
        "ends rounded down",
        "shape 1 1\n\
session 1\n\
append a 3/4 5\n\
sig 0 1/2 0\n\
sig 1/4 1 0\n",
        "shape 1 1\n\
session 1\n\
1 done 1\n\
2 sig version 1 hits 0 misses 0 exps 0\n\
level 1 over 1\n\
3 sig version 1 hits 0 misses 1 exps 1\n\
level 1 over 1 (1)=5\n\
order 1,1,1,1\n\
versions 1\n",
    ),
    (
        "the greatest weight that fits",
        "shape 1 8\n\
session 1\n\
append a 0 60096\n\
sig 0 1 0\n",
        "shape 1 8\n\
session 1\n\
1 done 1\n\
2 sig version 1 hits 0 misses 1 exps 1\n\
level 1 over 1 (1)=60096\n\
level 2 over 2 (1,1)=3611529216\n\
level 3 over 6 (1,1,1)=217038459764736\n\
level 4 over 24 (1,1,1,1)=13043143278021574656\n\
level 5 over 120 (1,1,1,1,1)=783840738435984550526976\n\
level 6 over 720 (1,1,1,1,1,1)=47105693017048927548469149696\n\
level 7 over 5040 (1,1,1,1,1,1,1)=2830863727552572349952802020130816\n\
level 8 over 40320 (1,1,1,1,1,1,1,1)=170123586570999387942763590201781518336\n\
order 1,1,1\n\
versions 1\n",
    ),
    (
        "the least weight that does not",
        "shape 1 8\n\
session 1\n\
append a 0 60097\n\
sig 0 1 0\n",
        "shape 1 8\n\
session 1\n\
1 done 1\n\
2 overflow 60097\n\
order 1,1\n\
versions 1\n",
    ),
    (
        "weights that fit apart and not together",
        "shape 1 8\n\
session 1\n\
append a 0 60096\n\
append b 1 1\n\
sig 0 1 0\n\
sig 1 2 0\n\
sig 0 2 0\n",
        "shape 1 8\n\
session 1\n\
1 done 1\n\
2 done 2\n\
3 sig version 2 hits 0 misses 1 exps 1\n\
level 1 over 1 (1)=60096\n\
level 2 over 2 (1,1)=3611529216\n\
level 3 over 6 (1,1,1)=217038459764736\n\
level 4 over 24 (1,1,1,1)=13043143278021574656\n\
level 5 over 120 (1,1,1,1,1)=783840738435984550526976\n\
level 6 over 720 (1,1,1,1,1,1)=47105693017048927548469149696\n\
level 7 over 5040 (1,1,1,1,1,1,1)=2830863727552572349952802020130816\n\
level 8 over 40320 (1,1,1,1,1,1,1,1)=170123586570999387942763590201781518336\n\
4 sig version 2 hits 0 misses 1 exps 1\n\
level 1 over 1 (1)=1\n\
level 2 over 2 (1,1)=1\n\
level 3 over 6 (1,1,1)=1\n\
level 4 over 24 (1,1,1,1)=1\n\
level 5 over 120 (1,1,1,1,1)=1\n\
level 6 over 720 (1,1,1,1,1,1)=1\n\
level 7 over 5040 (1,1,1,1,1,1,1)=1\n\
level 8 over 40320 (1,1,1,1,1,1,1,1)=1\n\
5 overflow 60097\n\
order 1,1,1,1,1,1,1\n\
versions 2\n",
    ),
    (
        "a name that is live, and one that isn't",
        "shape 1 1\n\
session 1\n\
append a 0 5\n\
append a 1 6\n\
remove z\n\
correct z 1\n",
        "shape 1 1\n\
session 1\n\
1 done 1\n\
2 name-taken 1\n\
3 no-row 1\n\
4 no-row 1\n\
order 1,1,1,1\n\
versions 1\n",
    ),
    (
        "corrections, and the versions before them",
        "shape 2 1\n\
session 1\n\
append a 0 2 3\n\
correct a 0 0\n\
correct a 2 3\n\
sig 0 1 0 at 1\n\
sig 0 1 0 at 2\n\
sig 0 1 0 at 3\n",
        "shape 2 1\n\
session 1\n\
1 done 1\n\
2 done 2\n\
3 done 3\n\
4 sig version 1 hits 0 misses 1 exps 1\n\
level 1 over 1 (1)=2 (2)=3\n\
5 sig version 2 hits 0 misses 1 exps 1\n\
level 1 over 1\n\
6 sig version 3 hits 0 misses 1 exps 1\n\
level 1 over 1 (1)=2 (2)=3\n\
order 1,1,1,1,1,1,1,1,1\n\
versions 3\n",
    ),
    (
        "a row that was removed and appended again comes last at its tick",
        "shape 2 2\n\
session 1\n\
append a 1 1 0\n\
append b 1 0 1\n\
remove a\n\
append a 1 1 0\n\
sig 1 2 0\n\
sig 1 2 0 at 2\n",
        "shape 2 2\n\
session 1\n\
1 done 1\n\
2 done 2\n\
3 done 3\n\
4 done 4\n\
5 sig version 4 hits 0 misses 1 exps 2\n\
level 1 over 1 (1)=1 (2)=1\n\
level 2 over 2 (1,1)=1 (2,1)=2 (2,2)=1\n\
6 sig version 2 hits 0 misses 1 exps 2\n\
level 1 over 1 (1)=1 (2)=1\n\
level 2 over 2 (1,1)=1 (1,2)=2 (2,2)=1\n\
order 1,1,1,1,1,1,1,1\n\
versions 4\n",
    ),
    (
        "versions that are and aren't there; a version that isn't comes before an overflow",
        "shape 1 1\n\
session 1\n\
append a 0 5\n\
append b 1 7\n\
sig 0 1 0 at 5\n\
sig 0 1 0 at 0\n\
sig 0 1 0 at 1\n",
        "shape 1 1\n\
session 1\n\
1 done 1\n\
2 done 2\n\
3 no-version 2\n\
4 sig version 0 hits 0 misses 0 exps 0\n\
level 1 over 1\n\
5 sig version 1 hits 0 misses 1 exps 1\n\
level 1 over 1 (1)=5\n\
order 1,1,1,1,1,1\n\
versions 2\n",
    ),
    (
        "a version that isn't there, and one that overflows",
        "shape 1 8\n\
session 1\n\
append a 0 60097\n\
correct a 1\n\
sig 0 1 0 at 3\n\
sig 0 1 0 at 1\n",
        "shape 1 8\n\
session 1\n\
1 done 1\n\
2 done 2\n\
3 no-version 2\n\
4 overflow 60097\n\
order 1,1,1,1\n\
versions 2\n",
    ),
    (
        "the second query finds what the first one kept",
        "shape 2 2\n\
session 1\n\
append a 0 2 3\n\
sig 0 1 0\n\
sig 0 1 0\n",
        "shape 2 2\n\
session 1\n\
1 done 1\n\
2 sig version 1 hits 0 misses 1 exps 1\n\
level 1 over 1 (1)=2 (2)=3\n\
level 2 over 2 (1,1)=4 (1,2)=6 (2,1)=6 (2,2)=9\n\
3 sig version 1 hits 1 misses 0 exps 0\n\
level 1 over 1 (1)=2 (2)=3\n\
level 2 over 2 (1,1)=4 (1,2)=6 (2,1)=6 (2,2)=9\n\
order 1,1,1,1\n\
versions 1\n",
    ),
    (
        "after a correction in one half of the interval the other half is found",
        "shape 1 1\n\
session 1\n\
append r0 0/16 1\n\
append r1 1/16 1\n\
append r2 2/16 1\n\
append r3 3/16 1\n\
append r4 4/16 1\n\
append r5 8/16 1\n\
append r6 9/16 1\n\
append r7 10/16 1\n\
append r8 11/16 1\n\
sig 0 1 0\n\
correct r5 2\n\
sig 0 1 0\n",
        "shape 1 1\n\
session 1\n\
1 done 1\n\
2 done 2\n\
3 done 3\n\
4 done 4\n\
5 done 5\n\
6 done 6\n\
7 done 7\n\
8 done 8\n\
9 done 9\n\
10 sig version 9 hits 0 misses 3 exps 9\n\
level 1 over 1 (1)=9\n\
11 done 10\n\
12 sig version 10 hits 1 misses 2 exps 4\n\
level 1 over 1 (1)=10\n\
order 1,1,1,1,1,1,1,1,1,1,1,1,1,1\n\
versions 10\n",
    ),
    (
        "two nodes are kept",
        "shape 1 1\n\
session 1\n\
append a 0 1\n\
append b 1 2\n\
sig 0 1 0\n\
sig 1 2 0\n\
sig 0 1 0\n",
        "shape 1 1\n\
session 1\n\
1 done 1\n\
2 done 2\n\
3 sig version 2 hits 0 misses 1 exps 1\n\
level 1 over 1 (1)=1\n\
4 sig version 2 hits 0 misses 1 exps 1\n\
level 1 over 1 (1)=2\n\
5 sig version 2 hits 1 misses 0 exps 0\n\
level 1 over 1 (1)=1\n\
order 1,1,1,1,1,1,1\n\
versions 2\n",
    ),
    (
        "each version between two edits has its own signature",
        "shape 1 1\n\
session 1\n\
append a 0 5\n\
sig 0 1 0\n\
correct a 6\n\
sig 0 1 0 at 1\n\
sig 0 1 0 at 2\n\
sig 0 1 0\n",
        "shape 1 1\n\
session 1\n\
1 done 1\n\
2 sig version 1 hits 0 misses 1 exps 1\n\
level 1 over 1 (1)=5\n\
3 done 2\n\
4 sig version 1 hits 1 misses 0 exps 0\n\
level 1 over 1 (1)=5\n\
5 sig version 2 hits 0 misses 1 exps 1\n\
level 1 over 1 (1)=6\n\
6 sig version 2 hits 1 misses 0 exps 0\n\
level 1 over 1 (1)=6\n\
order 1,1,1,1,1,1,1,1\n\
versions 2\n",
    ),
];

pub(crate) const LOGARITHMS: [(&str, &str, &str); 3] = [
    (
        "two rows in the order of time",
        "shape 2 4\n\
session 1\n\
append a 0 1 0\n\
append b 1/2 0 1\n\
log 0 1 0\n\
log 0 1 0 at 3\n\
log 0 1 0 at 1\n",
        "shape 2 4\n\
session 1\n\
1 done 1\n\
2 done 2\n\
3 log version 2 hits 0 misses 1 exps 2\n\
level 1 over 1 1=1 2=1\n\
level 2 over 8 [1,2]=4\n\
level 3 over 108 [1,[1,2]]=9 [2,[1,2]]=-9\n\
level 4 over 1152 [2,[1,[1,2]]]=-48\n\
4 no-version 2\n\
5 log version 1 hits 0 misses 1 exps 1\n\
level 1 over 1 1=1\n\
level 2 over 8\n\
level 3 over 108\n\
level 4 over 1152\n\
order 1,1,1,1,1,1,1\n\
versions 2\n",
    ),
    (
        "the greatest weight that fits",
        "shape 1 8\n\
session 1\n\
append a 0 6184\n\
log 0 1 0\n",
        "shape 1 8\n\
session 1\n\
1 done 1\n\
2 log version 1 hits 0 misses 1 exps 1\n\
level 1 over 1 1=6184\n\
level 2 over 8\n\
level 3 over 108\n\
level 4 over 1152\n\
level 5 over 36000\n\
level 6 over 259200\n\
level 7 over 14817600\n\
level 8 over 270950400\n\
order 1,1,1\n\
versions 1\n",
    ),
    (
        "the least weight that does not",
        "shape 1 8\n\
session 1\n\
append a 0 6185\n\
log 0 1 0\n",
        "shape 1 8\n\
session 1\n\
1 done 1\n\
2 overflow 6185\n\
order 1,1\n\
versions 1\n",
    ),
];

/// Scripts with rows that are Lie elements.
pub(crate) const LIE_ROWS: [(&str, &str, &str); 6] = [
    (
        "a pure area",
        "shape 2 2\n\
session 1\n\
append a 0 0 0 1\n\
sig 0 1 0\n\
log 0 1 0\n",
        "shape 2 2\n\
session 1\n\
1 done 1\n\
2 sig version 1 hits 0 misses 1 exps 1\n\
level 1 over 1\n\
level 2 over 2 (1,2)=2 (2,1)=-2\n\
3 log version 1 hits 1 misses 0 exps 0\n\
level 1 over 1\n\
level 2 over 8 [1,2]=8\n\
order 1,1,1,1\n\
versions 1\n",
    ),
    (
        "a row with an area, and one without",
        "shape 2 2\n\
session 1\n\
append a 0 1 0 1\n\
append b 1/2 0 1\n\
sig 0 1 0\n\
log 0 1 0\n",
        "shape 2 2\n\
session 1\n\
1 done 1\n\
2 done 2\n\
3 sig version 2 hits 0 misses 1 exps 2\n\
level 1 over 1 (1)=1 (2)=1\n\
level 2 over 2 (1,1)=1 (1,2)=4 (2,1)=-2 (2,2)=1\n\
4 log version 2 hits 1 misses 0 exps 0\n\
level 1 over 1 1=1 2=1\n\
level 2 over 8 [1,2]=12\n\
order 1,1,1,1,1\n\
versions 2\n",
    ),
    (
        "the greatest area that fits",
        "shape 2 8\n\
session 1\n\
append a 0 0 0 225720576\n\
sig 0 1 0\n",
        "shape 2 8\n\
session 1\n\
1 done 1\n\
2 sig version 1 hits 0 misses 1 exps 1\n\
level 1 over 1\n\
level 2 over 2 (1,2)=451441152 (2,1)=-451441152\n\
level 3 over 6\n\
level 4 over 24 (1,2,1,2)=611397341157261312 (1,2,2,1)=-611397341157261312 (2,1,1,2)=-611397341157261312 (2,1,2,1)=611397341157261312\n\
level 5 over 120\n\
level 6 over 720 (1,2,1,2,1,2)=1380049600108855299271557120 (1,2,1,2,2,1)=-1380049600108855299271557120 (1,2,2,1,1,2)=-1380049600108855299271557120 (1,2,2,1,2,1)=1380049600108855299271557120 (2,1,1,2,1,2)=-1380049600108855299271557120 (2,1,1,2,2,1)=1380049600108855299271557120 (2,1,2,1,1,2)=1380049600108855299271557120 (2,1,2,1,2,1)=-1380049600108855299271557120\n\
level 7 over 5040\n\
level 8 over 40320 (1,2,1,2,1,2,1,2)=4361078269031966731931195549606215680 (1,2,1,2,1,2,2,1)=-4361078269031966731931195549606215680 (1,2,1,2,2,1,1,2)=-4361078269031966731931195549606215680 (1,2,1,2,2,1,2,1)=4361078269031966731931195549606215680 (1,2,2,1,1,2,1,2)=-4361078269031966731931195549606215680 (1,2,2,1,1,2,2,1)=4361078269031966731931195549606215680 (1,2,2,1,2,1,1,2)=4361078269031966731931195549606215680 (1,2,2,1,2,1,2,1)=-4361078269031966731931195549606215680 (2,1,1,2,1,2,1,2)=-4361078269031966731931195549606215680 (2,1,1,2,1,2,2,1)=4361078269031966731931195549606215680 (2,1,1,2,2,1,1,2)=4361078269031966731931195549606215680 (2,1,1,2,2,1,2,1)=-4361078269031966731931195549606215680 (2,1,2,1,1,2,1,2)=4361078269031966731931195549606215680 (2,1,2,1,1,2,2,1)=-4361078269031966731931195549606215680 (2,1,2,1,2,1,1,2)=-4361078269031966731931195549606215680 (2,1,2,1,2,1,2,1)=4361078269031966731931195549606215680\n\
order 1,1,1\n\
versions 1\n",
    ),
    (
        "the least area that does not",
        "shape 2 8\n\
session 1\n\
append a 0 0 0 225720577\n\
sig 0 1 0\n",
        "shape 2 8\n\
session 1\n\
1 done 1\n\
2 overflow 60097\n\
order 1,1\n\
versions 1\n",
    ),
    (
        "a correction from one part to three and back",
        "shape 2 3\n\
session 1\n\
append a 0 1 0\n\
sig 0 1 0\n\
correct a 1 2 3 -1 1\n\
sig 0 1 0\n\
correct a 1 0\n\
sig 0 1 0\n",
        "shape 2 3\n\
session 1\n\
1 done 1\n\
2 sig version 1 hits 0 misses 1 exps 1\n\
level 1 over 1 (1)=1\n\
level 2 over 2 (1,1)=1\n\
level 3 over 6 (1,1,1)=1\n\
3 done 2\n\
4 sig version 2 hits 0 misses 1 exps 1\n\
level 1 over 1 (1)=1 (2)=2\n\
level 2 over 2 (1,1)=1 (1,2)=8 (2,1)=-4 (2,2)=4\n\
level 3 over 6 (1,1,1)=1 (1,1,2)=5 (1,2,1)=14 (1,2,2)=16 (2,1,1)=-13 (2,1,2)=16 (2,2,1)=-20 (2,2,2)=8\n\
5 done 3\n\
6 sig version 3 hits 0 misses 1 exps 1\n\
level 1 over 1 (1)=1\n\
level 2 over 2 (1,1)=1\n\
level 3 over 6 (1,1,1)=1\n\
order 1,1,1,1,1,1,1,1,1\n\
versions 3\n",
    ),
    (
        "an area at the edge of a node",
        "shape 2 3\n\
session 1\n\
append a 0 1 0\n\
append b 1 0 0 1\n\
sig 0 1 0\n\
sig 1 2 0\n\
sig 0 2 0\n",
        "shape 2 3\n\
session 1\n\
1 done 1\n\
2 done 2\n\
3 sig version 2 hits 0 misses 1 exps 1\n\
level 1 over 1 (1)=1\n\
level 2 over 2 (1,1)=1\n\
level 3 over 6 (1,1,1)=1\n\
4 sig version 2 hits 0 misses 1 exps 1\n\
level 1 over 1\n\
level 2 over 2 (1,2)=2 (2,1)=-2\n\
level 3 over 6\n\
5 sig version 2 hits 0 misses 1 exps 2\n\
level 1 over 1 (1)=1\n\
level 2 over 2 (1,1)=1 (1,2)=2 (2,1)=-2\n\
level 3 over 6 (1,1,1)=1 (1,1,2)=6 (1,2,1)=-6\n\
order 1,1,1,1,1,1,1,1\n\
versions 2\n",
    ),
];

/// Lists of elements, each with its status and what is written.
pub(crate) const PRODUCTS: [(&str, u8, &str); 8] = [
    (LOOP, 0, LOOP_PRODUCT),
    (
        "shape 2 4\n1 0\n0 1\n",
        0,
        "shape 2 4\n\
cbh 2\n\
level 1 over 1 1=1 2=1\n\
level 2 over 8 [1,2]=4\n\
level 3 over 108 [1,[1,2]]=9 [2,[1,2]]=-9\n\
level 4 over 1152 [2,[1,[1,2]]]=-48\n",
    ),
    (
        "shape 2 2\n3 0 5\n",
        0,
        "shape 2 2\ncbh 1\nlevel 1 over 1 1=3\nlevel 2 over 8 [1,2]=40\n",
    ),
    (
        "shape 2 2\n1 2 3\n-1 -2 -3\n",
        0,
        "shape 2 2\ncbh 2\nlevel 1 over 1\nlevel 2 over 8\n",
    ),
    (
        "shape 2 2\n",
        0,
        "shape 2 2\ncbh 0\nlevel 1 over 1\nlevel 2 over 8\n",
    ),
    ("shape 1 8\n6185\n", 0, "shape 1 8\ncbh 1\noverflow 6185\n"),
    ("shape 2 2\n1\n", 3, "fault line 2 fields\n"),
    (SCRIPT, 3, "fault line 2 number\n"),
];

/// Words, scripts with watches, and what is written.
pub(crate) const WATCHED: [(&[&str], &str, &str); 7] = [
    (
        &[],
        "shape 1 1\nsession 1\nwatch 0 1 0\nappend a 1/2 5\nappend b 1 7\ncorrect a 6\nremove b\n",
        "shape 1 1\n\
session 1\n\
1 done 1\n\
2 done 2\n\
3 done 3\n\
4 done 4\n\
order 1,1,1,1\n\
versions 4\n\
watch 1 versions 1,3\n",
    ),
    (
        &[],
        "shape 1 1\nsession 1\nwatch 2 3 0\nappend a 1/2 5\nappend b 1 7\ncorrect a 6\nremove b\n",
        "shape 1 1\n\
session 1\n\
1 done 1\n\
2 done 2\n\
3 done 3\n\
4 done 4\n\
order 1,1,1,1\n\
versions 4\n\
watch 1 versions none\n",
    ),
    (
        &["--json"],
        "shape 1 1\nsession 1\nwatch 0 1 0\nappend a 1/2 5\nappend b 1 7\ncorrect a 6\nremove b\n",
        "{\"order\":[1,1,1,1],\"sessions\":[[\
{\"command\":1,\"reply\":\"done\",\"version\":1},\
{\"command\":2,\"reply\":\"done\",\"version\":2},\
{\"command\":3,\"reply\":\"done\",\"version\":3},\
{\"command\":4,\"reply\":\"done\",\"version\":4}]],\
\"shape\":[1,1],\"versions\":4,\"watches\":[[1,3]]}\n",
    ),
    (
        &[],
        "shape 1 1\nwatch 0 1 0\nsession 1\n",
        "shape 1 1\nsession 1\norder none\nversions 0\nwatch 1 versions none\n",
    ),
    (
        &["--json"],
        "shape 1 1\nwatch 0 1 0\nsession 1\n",
        "{\"order\":[],\"sessions\":[[]],\"shape\":[1,1],\"versions\":0,\"watches\":[[]]}\n",
    ),
    // The ends of the first are rounded to nothing; a refused edit makes no version.
    (
        &[],
        "shape 1 1\nwatch 1/4 3/4 0\nwatch 1/4 3/4 2\nsession 1\nappend a 1/2 5\nappend a 1/2 6\nremove b\n",
        "shape 1 1\n\
session 1\n\
1 done 1\n\
2 name-taken 1\n\
3 no-row 1\n\
order 1,1,1\n\
versions 1\n\
watch 1 versions none\n\
watch 2 versions 1\n",
    ),
    (
        &["--order", "1,2,2,1"],
        "shape 1 1\nwatch 0 1 0\nsession 1\nappend a 0 1\nremove b\nsession 2\nappend b 1 1\ncorrect a 2\n",
        "shape 1 1\n\
session 1\n\
1 done 1\n\
2 done 4\n\
session 2\n\
1 done 2\n\
2 done 3\n\
order 1,2,2,1\n\
versions 4\n\
watch 1 versions 1,3\n",
    ),
];

/// A loop of two moves.
pub(crate) const LOOP: &str = "# a loop of two\nshape 2 3\n1 0\n0 1\n-1 0\n0 -1\n";

pub(crate) const LOOP_PRODUCT: &str = "shape 2 3\n\
cbh 4\n\
level 1 over 1\n\
level 2 over 8 [1,2]=8\n\
level 3 over 108 [1,[1,2]]=54 [2,[1,2]]=54\n";

pub(crate) const SCRIPT: &str = "shape 2 2\nsession 1\nappend a 0 2 3\nsig 0 1 0\n";

pub(crate) const ANSWERS: &str = "shape 2 2\n\
session 1\n\
1 done 1\n\
2 sig version 1 hits 0 misses 1 exps 1\n\
level 1 over 1 (1)=2 (2)=3\n\
level 2 over 2 (1,1)=4 (1,2)=6 (2,1)=6 (2,2)=9\n\
order 1,1,1\n\
versions 1\n";

/// The same as JSON.
pub(crate) const JSON_ANSWERS: &str = "{\"order\":[1,1,1],\"sessions\":[[\
{\"command\":1,\"reply\":\"done\",\"version\":1},\
{\"command\":2,\"exps\":1,\"hits\":0,\"levels\":[\
{\"over\":\"1\",\"terms\":[[\"(1)\",\"2\"],[\"(2)\",\"3\"]]},\
{\"over\":\"2\",\"terms\":[[\"(1,1)\",\"4\"],[\"(1,2)\",\"6\"],[\"(2,1)\",\"6\"],[\"(2,2)\",\"9\"]]}],\
\"misses\":1,\"reply\":\"sig\",\"version\":1}]],\"shape\":[2,2],\"versions\":1}\n";

pub(crate) const TWO_SESSIONS: &str = "shape 1 2\n\
session 1\n\
append a 0 1\n\
sig 0 1 0\n\
sig 0 1 0\n\
session 2\n\
append b 1/2 1\n";

pub(crate) const TWO_LOOKS: &str = "shape 1 2\n\
session 1\n\
append a 0 1\n\
sig 0 1 0\n\
session 2\n\
append b 1/2 1\n\
sig 0 1 0\n\
sig 0 1 0 at 1\n";

/// Names, scripts of two sessions, an order of their steps, and their answers in it.
pub(crate) const ORDERED: [(&str, &str, &str, &str); 3] = [
    (
        "in turns",
        TWO_SESSIONS,
        "1,2,1,1,1",
        "shape 1 2\n\
session 1\n\
1 done 1\n\
2 sig version 2 hits 0 misses 1 exps 2\n\
level 1 over 1 (1)=2\n\
level 2 over 2 (1,1)=4\n\
3 sig version 2 hits 1 misses 0 exps 0\n\
level 1 over 1 (1)=2\n\
level 2 over 2 (1,1)=4\n\
session 2\n\
1 done 2\n\
order 1,2,1,1,1\n\
versions 2\n",
    ),
    (
        "the edit of the other session falls between a look and its settle",
        TWO_SESSIONS,
        "1,1,2,1,1,1",
        "shape 1 2\n\
session 1\n\
1 done 1\n\
2 sig version 1 hits 0 misses 1 exps 1\n\
level 1 over 1 (1)=1\n\
level 2 over 2 (1,1)=1\n\
3 sig version 2 hits 0 misses 1 exps 2\n\
level 1 over 1 (1)=2\n\
level 2 over 2 (1,1)=4\n\
session 2\n\
1 done 2\n\
order 1,1,2,1,1,1\n\
versions 2\n",
    ),
    (
        "looks and settles of two sessions cross",
        TWO_LOOKS,
        "1,1,2,2,1,2,2",
        "shape 1 2\n\
session 1\n\
1 done 1\n\
2 sig version 1 hits 0 misses 1 exps 1\n\
level 1 over 1 (1)=1\n\
level 2 over 2 (1,1)=1\n\
session 2\n\
1 done 2\n\
2 sig version 2 hits 0 misses 1 exps 2\n\
level 1 over 1 (1)=2\n\
level 2 over 2 (1,1)=4\n\
3 sig version 1 hits 1 misses 0 exps 0\n\
level 1 over 1 (1)=1\n\
level 2 over 2 (1,1)=1\n\
order 1,1,2,2,1,2,2\n\
versions 2\n",
    ),
];
