//! The words of a call.

pub(crate) const ROWS: &str = r#"
given
# Words that run the counter.
k1.fir = counter
p.json: {}
k1.trace | cycle reset | 0 1 | 1 0 | 2 0 | 3 0

$ golden run k1.fir p.json k1.trace --mono -> prints after 3 loads | cycle out | 0 00 | 1 00 | 2 01 | 3 02
$ golden run k1.fir p.json k1.trace --workers 0 -> prints after 3 loads | cycle out | 0 00 | 1 00 | 2 01 | 3 02
$ golden run k1.fir p.json k1.trace --workers 1 -> prints after 3 loads | cycle out | 0 00 | 1 00 | 2 01 | 3 02
$ golden run k1.fir p.json k1.trace --workers=2 -> prints after 3 loads | cycle out | 0 00 | 1 00 | 2 01 | 3 02
$ golden run --workers 3 k1.fir p.json k1.trace -> prints after 3 loads | cycle out | 0 00 | 1 00 | 2 01 | 3 02
$ golden run k1.fir --workers 64 p.json k1.trace -> prints after 3 loads | cycle out | 0 00 | 1 00 | 2 01 | 3 02
$ golden run k1.fir p.json k1.trace --capacity 1 -> prints after 3 loads | cycle out | 0 00 | 1 00 | 2 01 | 3 02
$ golden run k1.fir p.json k1.trace --capacity=3 -> prints after 3 loads | cycle out | 0 00 | 1 00 | 2 01 | 3 02
$ golden run k1.fir p.json --capacity 4096 k1.trace -> prints after 3 loads | cycle out | 0 00 | 1 00 | 2 01 | 3 02
$ golden run --mono k1.fir p.json k1.trace --capacity 0002 --workers 00 -> prints after 3 loads | cycle out | 0 00 | 1 00 | 2 01 | 3 02
$ golden run --mono -- k1.fir p.json k1.trace -> prints after 3 loads | cycle out | 0 00 | 1 00 | 2 01 | 3 02
$ gold run k1.fir -- p.json k1.trace -> prints after 3 loads | cycle out | 0 00 | 1 00 | 2 01 | 3 02

given
# Words that save the counter.
k1.fir = counter
p.json: {}
k1.trace | cycle reset | 0 1 | 1 0 | 2 0 | 3 0

$ golden save k1.fir p.json k1.trace 3 -> saves after 3 loads | golden snapshot 1 | cycle 3 | reg c 02
$ golden save --capacity 1 k1.fir p.json --workers=2 k1.trace 0000003 -> saves after 3 loads | golden snapshot 1 | cycle 3 | reg c 02
$ golden save k1.fir p.json -- k1.trace 0 -> saves after 3 loads | golden snapshot 1 | cycle 0
$ golden save k1.fir p.json k1.trace 1000000 -> status 10 after 3 loads | golden: snapshot: S2 1000000 4

given
# Words that `clap` refuses.
k1.fir = counter
p.json: {}
k1.trace | cycle reset | 0 1 | 1 0 | 2 0 | 3 0

$ golden -> usage: golden: words: no command is given
$ golden run k1.fir -> usage: golden: words: a file or a number is missing
$ golden run k1.fir p.json k1.trace k2.trace k3.trace -> usage: golden: words: 'k2.trace' is unexpected
$ golden run -k1.fir p.json k1.trace -> usage: golden: words: '-k1.fir' is unexpected
$ golden run --mono=true k1.fir p.json k1.trace -> usage: golden: words: '--mono=true' is unexpected
$ golden run k1.fir p.json k1.trace --mono --mono -> usage: golden: words: an option is given twice
$ golden run k1.fir p.json k1.trace --capacity -> usage: golden: words: an option has no value
$ golden walk k1.fir p.json k1.trace -> usage: golden: words: 'walk' is unexpected
$ golden rnu k1.fir p.json k1.trace -> usage: golden: words: 'rnu' is unexpected
$ golden check k1.fir --workers 2 p.json -> usage: golden: words: '--workers' is unexpected
$ golden replay k1.fir p.json k1.trace -> usage: golden: words: a file or a number is missing
$ golden demo 0 -> usage: golden: words: a file or a number is missing
$ golden save k1.fir p.json k1.trace -> usage: golden: words: a file or a number is missing
$ golden save k1.fir p.json k1.trace -3 -> usage: golden: words: '-3' is unexpected
$ golden save k1.fir p.json k1.trace 3 --mono -> usage: golden: words: '--mono' is unexpected
$ golden resume k1.fir p.json k1.trace -> usage: golden: words: a file or a number is missing
$ golden resume k1.fir p.json k1.trace k1.snap 3 -> usage: golden: words: '3' is unexpected
$ golden --help -> usage: golden: words: '--help' is unexpected

given
# Words with a value that isn't a number in its range: on the files of two units, and of the counter.
k1.fir = counter
p.json: {}
k1.trace | cycle reset | 0 1 | 1 0 | 2 0 | 3 0

$ golden run k1.fir p.json k1.trace --capacity 0
k1.fir = pair
p.json: {"units":["a","b"]}
k1.trace | cycle x | 0 0f | 1 81
status 2 after 0 loads | golden: words: '0' is not a number in its range: --capacity takes 1 to 4096, --workers 0 to 64, SEED 0 to 4294967295, SIZE 1 to 64, AT 0 to 1000000

$ golden run k1.fir p.json k1.trace --capacity 4097
k1.fir = pair
p.json: {"units":["a","b"]}
k1.trace | cycle x | 0 0f | 1 81
status 2 after 0 loads | golden: words: '4097' is not a number in its range: --capacity takes 1 to 4096, --workers 0 to 64, SEED 0 to 4294967295, SIZE 1 to 64, AT 0 to 1000000

$ golden run k1.fir p.json k1.trace --workers 65
k1.fir = pair
p.json: {"units":["a","b"]}
k1.trace | cycle x | 0 0f | 1 81
status 2 after 0 loads | golden: words: '65' is not a number in its range: --capacity takes 1 to 4096, --workers 0 to 64, SEED 0 to 4294967295, SIZE 1 to 64, AT 0 to 1000000

$ golden check k1.fir p.json --capacity +7
status 2 after 0 loads | golden: words: '+7' is not a number in its range: --capacity takes 1 to 4096, --workers 0 to 64, SEED 0 to 4294967295, SIZE 1 to 64, AT 0 to 1000000

$ golden demo 0 0
status 2 after 0 loads | golden: words: '0' is not a number in its range: --capacity takes 1 to 4096, --workers 0 to 64, SEED 0 to 4294967295, SIZE 1 to 64, AT 0 to 1000000

$ golden demo 0 65
status 2 after 0 loads | golden: words: '65' is not a number in its range: --capacity takes 1 to 4096, --workers 0 to 64, SEED 0 to 4294967295, SIZE 1 to 64, AT 0 to 1000000

$ golden demo 4294967296 1
status 2 after 0 loads | golden: words: '4294967296' is not a number in its range: --capacity takes 1 to 4096, --workers 0 to 64, SEED 0 to 4294967295, SIZE 1 to 64, AT 0 to 1000000

$ golden demo 0 1 --workers 65
status 2 after 0 loads | golden: words: '65' is not a number in its range: --capacity takes 1 to 4096, --workers 0 to 64, SEED 0 to 4294967295, SIZE 1 to 64, AT 0 to 1000000

given
# The same of `save` and `resume`. The cycle comes first, then the capacity.
k1.fir = counter
p.json: {}
k1.trace | cycle reset | 0 1 | 1 0 | 2 0 | 3 0

$ golden save k1.fir p.json k1.trace 1000001
status 2 after 0 loads | golden: words: '1000001' is not a number in its range: --capacity takes 1 to 4096, --workers 0 to 64, SEED 0 to 4294967295, SIZE 1 to 64, AT 0 to 1000000

$ golden save k1.fir p.json k1.trace k1.snap --capacity 0
status 2 after 0 loads | golden: words: 'k1.snap' is not a number in its range: --capacity takes 1 to 4096, --workers 0 to 64, SEED 0 to 4294967295, SIZE 1 to 64, AT 0 to 1000000

$ golden save k1.fir p.json k1.trace +3
status 2 after 0 loads | golden: words: '+3' is not a number in its range: --capacity takes 1 to 4096, --workers 0 to 64, SEED 0 to 4294967295, SIZE 1 to 64, AT 0 to 1000000

$ golden save k1.fir p.json k1.trace 3 --workers 65 --capacity 4097
status 2 after 0 loads | golden: words: '4097' is not a number in its range: --capacity takes 1 to 4096, --workers 0 to 64, SEED 0 to 4294967295, SIZE 1 to 64, AT 0 to 1000000

$ golden resume k1.fir p.json k1.trace k1.snap --workers 65
status 2 after 0 loads | golden: words: '65' is not a number in its range: --capacity takes 1 to 4096, --workers 0 to 64, SEED 0 to 4294967295, SIZE 1 to 64, AT 0 to 1000000
"#;
