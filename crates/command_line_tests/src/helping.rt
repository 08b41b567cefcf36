//! Help and the version.
use crate::answers::{Row, help_is_the_same, helps, says};

/// Words that ask for a help, and parts of it.
static HELPS: &[(&str, &[&str])] = &[
    (
        "filter|--help",
        &[
            "--cotype <TYPE,TYPE>",
            "Only features of these types",
            "--bbox <MINX,MINY,MAXX,MAXY>",
            "meets this area, even if only at an edge.",
            "Usage: citymerge filter [OPTIONS] < TILE\n",
            "Give the least x and y, then the greatest,",
            "in grid units: the whole numbers of",
            "vertices in the output, not metres.",
            "(coordinate - translate) / scale,",
            "rounded; GUIDE.md shows how.",
            "--bbox=0,0,20000,10000; keep the = before",
            "a number below 0, as in --bbox=-5,0,10,10",
            "`building` finds nothing.",
            "--cotype=Building,Bridge",
            "--exclude",
            "Only the features that the other options",
            "stand in place of the header; its features come first.",
            "citymerge filter --bbox=-5,0,10,10 < tile.city.jsonl > part.city.jsonl",
            "  0  done, or help was asked for\n",
            "  1  refused, with one line on standard error\n",
            "  2  wrong use, told on standard error; nothing was read\n",
        ],
    ),
    (
        "--help",
        &[
            "  merge   Join the streams of several files",
            "  filter  Choose features from a stream",
            "  cat     Cut a CityJSON document",
            "A tile is a CityJSONSeq stream",
            "citymerge: tile T line L: TEXT",
            "citymerge merge west.city.jsonl east.city.jsonl > both.city.jsonl",
            "citymerge filter --cotype=Building < tile.city.jsonl",
            "citymerge cat < town.city.json > town.city.jsonl",
            "  0  done, or help was asked for\n",
            "  1  refused, with one line on standard error\n",
            "  2  wrong use, told on standard error; nothing was read\n",
        ],
    ),
    ("help|help", &["Usage"]),
    (
        "merge|--help",
        &[
            "<TILE>...",
            "A whole CityJSON document may stand in place of the header.",
            "At most 64. /dev/stdin is standard input, `-` a file of that",
            "put `--` before a name that begins with `-`.",
            "A line at fault later ends its own tile",
            "features with the\nsame identifier in two tiles are both written.",
            "The output must not be one of the tiles",
            "--in-turn",
            "--least",
            "--bbox <MINX,MINY,MAXX,MAXY>",
            "citymerge merge west.city.jsonl east.city.jsonl > both.city.jsonl",
            "  1  refused, with one line on standard error\n",
        ],
    ),
    (
        "cat|--help",
        &[
            "Cut a CityJSON document on standard input into a stream.",
            "Usage: citymerge cat < DOCUMENT\n",
            "it is held in memory.",
            "A document may\nbe spread over lines, and may have up to 2^28 bytes",
            "The stream may be many times as long as its document, up to its square",
            "citymerge cat < town.city.json > town.city.jsonl",
            "  1  refused, with one line on standard error\n",
        ],
    ),
];

#[test]
fn help_says_what_each_option_does(rt: HostRuntime) {
    for (words, parts) in HELPS {
        assert!(rt; helps(rt.alloc(), words, parts));
    }
}

/// Words that ask for the same help.
static SAME: &[Row] = &[
    ("-h", "--help"),
    ("help", "--help"),
    ("--help|filter|--nope", "--help"),
    ("filter|-h", "filter|--help"),
    ("help|filter", "filter|--help"),
    ("filter|--cotype=,|--help", "filter|--help"),
    ("help|merge", "merge|--help"),
    ("merge|a|-h", "merge|--help"),
    ("help|cat", "cat|--help"),
];

#[test]
fn help_is_asked_for_in_some_ways(rt: HostRuntime) {
    for (words, others) in SAME {
        assert!(rt; help_is_the_same(rt.alloc(), words, others));
    }
}

#[test]
fn the_version_is_told(rt: HostRuntime) {
    assert!(rt; says(rt.alloc(), "--version", b"citymerge 0.1.0\n"));
    assert!(rt; says(rt.alloc(), "-V", b"citymerge 0.1.0\n"));
}
