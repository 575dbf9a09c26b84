//! The texts of the help, each line of them at most 80 columns wide where it is shown.

/// What `--version` gives after the program's name.
pub const VERSION: &str = "1.0.0";

/// The band table.
pub const BANDS: &str = "\
The band table, as CSV\n\
\n\
The first record is at,step. 1 to 50 bands follow. Each is an amount\n\
and a step, in cents: from this amount on prices rise by this step.\n\
The first amount is 0, and no step falls.";

/// The rate of the fee.
pub const RATE: &str = "\
The fee of a sale, in ten-thousandths of its price: 0 to 2000\n\
\n\
1000 is a tenth. A percent sign and a point are refused.";

/// The rule of the zone.
pub const ZONE: &str = "\
The time zone, as a POSIX rule such as CET-1CEST,M3.5.0,M10.5.0/3\n\
\n\
The days of statements go by it. The name of a city is no rule.";

/// A house that runs begin with.
pub const HOUSE: &str = "\
Begin with the house in a file, as it is\n\
\n\
FILE and its log are read into memory, and stay as they are. The house\n\
has a band table, a rate and a zone of its own.";

/// The moment of an import.
pub const MOMENT: &str = "\
The moment of each listing, in whole seconds after 1970 began:\n\
0 to 4102444800\n\
\n\
The command date +%s prints the present one.";

/// What else is said of `init`.
pub const INIT: &str = "\
A house keeps its rate and its zone for ever. Its band table is edition 1, and\n\
bands sets others.\n\
\n\
Example: auction init house --bands bands.csv --rate 1000 --zone UTC0";

/// What else is said of `serve`.
pub const SERVE: &str = "\
It prints listening, answers the connections one after the other, at most 10000\n\
messages each, and prints served and their number. It gives up a connection on\n\
which nothing moves for 30 seconds, reading or writing.\n\
\n\
Meanwhile every other process is refused FILE, among them import, statement and\n\
a second serve.\n\
\n\
It stops after the last connection. SIGTERM stops it at once. Both keep all that\n\
was answered.\n\
\n\
FILE-wal beside FILE is its log. While serve runs, and after it was stopped by a\n\
signal, the log belongs to FILE: keep, move and copy both together. After served\n\
was printed, FILE alone is the house.\n\
\n\
Example: auction serve house --port 8080 --count 100";

/// What else is said of `replay`.
pub const REPLAY: &str = "\
Without --bands the house has a table of ten bands. --preset makes the members\n\
Ana, Ben and Cid, the category Books, and Ana's item Atlas, which ends at 5000.\n\
\n\
Example: auction replay --preset --record < messages.http > answers.http";

/// What else is said of `import`.
pub const IMPORT: &str = "\
The first record of LOTS is lot,category,title,text,start,buy_now,end. Each row\n\
is one item: category and end are 1 to 10 digits, start and buy_now are amounts\n\
such as 12 or 12.50, and buy_now may be empty.\n\
\n\
It prints a line for each row, and last how many were listed, were there already\n\
and were refused. The exit status is 1 where a row was refused.\n\
\n\
Example: auction import house lots.csv --member 1 --moment 1767225600";

/// What else is said of `statement`.
pub const STATEMENT: &str = "\
A day is from 1970-01-01 to 2100-12-31, and counted in the house's time zone.\n\
Both days are in the period.\n\
\n\
Example: auction statement house --member 1 --from 2026-01-01 --to 2026-12-31";

/// What else is said of `bands`.
pub const SET_BANDS: &str = "\
It prints edition and the number of the table, from 2 on. Items that come after\n\
it go by it, and each item that is there keeps its own table. A house may have\n\
100 editions, with the table that init gave it.\n\
\n\
The first record of CSV is at,step. 1 to 50 bands follow, as of init.\n\
\n\
Example: auction bands house bands.csv --moment 1767225600";

/// What else is said of `upgrade`.
pub const UPGRADE: &str = "\
It prints upgraded, or is version 2 where there was nothing to do. Every row\n\
stays as it was.\n\
\n\
A program for version 1 can't open the house afterwards. So keep a copy of FILE,\n\
and of FILE-wal where that is there.\n\
\n\
A stop or a crash leaves the one version or the other, whole: upgrade it again.\n\
A house that is Damaged stays as it was.\n\
\n\
Example: auction upgrade house";

/// What else is said of `audit`.
pub const AUDIT: &str = "\
Both runs begin with a new house in memory. Without --bands it has a table of\n\
ten bands. With --house both begin with the house in a file.\n\
\n\
It prints equal and the number of the member's replies where three things are\n\
the same in both: every message of the member, the public record after each\n\
message, and the questions that wait for the member. Else it prints apart and\n\
the first place at which they differ, and the exit status is 1.\n\
\n\
Example: auction audit left.http right.http --member 2";

/// What else is said of `surplus`.
pub const SURPLUS: &str = "\
It puts a greater maximum into one bid of the run, and compares both runs. Both\n\
begin with a new house in memory. Without --bands it has a table of ten bands.\n\
With --house both begin with the house in a file.\n\
\n\
It prints same and the number of the member's replies where the bid is covered:\n\
it is accepted and its bidder's last on its item, in the end its bidder leads by\n\
one step over the second at least, and another looks. The replies are then the\n\
same in both. Else it prints not covered, and the exit status is 1.\n\
\n\
Example: auction surplus list.http --place 7 --maximum 8000 --member 2";

/// What else is said of the program.
pub const PROGRAM: &str = "\
Examples:\n\
\x20 auction init house --bands bands.csv --rate 1000 --zone UTC0\n\
\x20 auction serve house --port 8080 --count 100\n\
\x20 auction import house lots.csv --member 1 --moment 1767225600\n\
\x20 auction statement house --member 1 --from 2026-01-01 --to 2026-12-31\n\
\x20 auction bands house bands.csv --moment 1767225600\n\
\x20 auction upgrade house\n\
\x20 auction replay --preset --record < messages.http > answers.http\n\
\x20 auction audit left.http right.http --member 2\n\
\x20 auction surplus list.http --place 7 --maximum 8000 --member 2\n\
\n\
Exit status:\n\
\x20 0  it is done\n\
\x20 1  there was a fault; or import refused a row, audit found two runs apart,\n\
\x20    surplus found no covered bid\n\
\x20 2  the command line is refused\n\
\n\
A fault is one line on standard error:\n\
\x20 auction: memory            the machine refused memory\n\
\x20 auction: bands: NAME       the band table: what is wrong, and in which row\n\
\x20 auction: zone              the zone is no POSIX rule\n\
\x20 auction: date              a day is none\n\
\x20 auction: order             the last day lies before the first\n\
\x20 auction: file: Store       the file or its database failed, or is in use\n\
\x20 auction: file: Damaged     the file is no house of version 2; or init found\n\
\x20                            something there\n\
\x20 auction: no member         nobody has the member's number\n\
\x20 auction: refused NAME      the house refuses the table, for this reason\n\
\x20 auction: lots: Head        the first record of the lot file is another\n\
\x20 auction: lots: Csv         a row has another number of fields\n\
\x20 auction: input: Read       an input can't be opened or read\n\
\x20 auction: output: Write     standard output is full or closed\n\
\x20 auction: socket            the port can't be had, or a connection\n\
\x20 auction: LEFT is no list of messages\n\
\x20                            LEFT, RIGHT or LIST has a broken frame\n\
\x20 auction: command line      a word is not UTF-8\n\
docs/RUNNING.md has the causes of each line, and what to do.";
