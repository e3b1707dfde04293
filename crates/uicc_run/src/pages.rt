//! The pages that the program prints about itself.
ghost use Rattle.std.specs.Prelude.{◌≡◌, map, string_bytes};
ghost use Rattle.byte_streams.specs.Streams.{CountsEach};
ghost use Rattle.script_form.specs.Reads.{Reads};
ghost use Rattle.uicc_run.specs.Pages.{AsksFor, IsPageWord, Shows, page_text};

use byte_streams::{Failed, Sink};

/// A page that the program prints in place of a run.
#[derive(Clone, Copy, PartialEq, Eq)]
pub enum Page {
    Help,
    Version,
}

/// The page that the words ask for: `--help` and `--version`, each alone.
pub fn page_of(words: &[String]) -> Option<Page>
    ensures { Reads (AsksFor (map string_bytes words.now)) result }
{
    match words {
        [word] => page_named(word.as_str()),
        _ => None,
    }
}

fn page_named(word: &str) -> Option<Page>
    ensures { Reads (IsPageWord word.now) result }
{
    match word {
        "--help" => Some(Page::Help),
        "--version" => Some(Page::Version),
        _ => None,
    }
}

/// Writes the page, in one call of `put`, and answers the status: 0, or 4 where the sink failed.
pub fn show<W: Sink>(page: Page, output: &mut W) -> u8
    ensures shown { Shows page (W.taken output.old) (W.taken output.new) result }
    ensures cause { CountsEach (W.faults output.old) (W.faults output.new) (result ≡ 4) }
{
    match output.put(text_of(page)) {
        Ok(()) => 0,
        Err(Failed) => 4,
    }
}

fn text_of(page: Page) -> &'static [u8]
    ensures { result.now ≡ page_text page }
{
    match page {
        Page::Help => HELP.as_bytes(),
        Page::Version => VERSION.as_bytes(),
    }
}

/// The program's name and version.
const VERSION: &str = "uicc_run 0.1.0\n";

/// What the program does, and how it is used.
const HELP: &str = "uicc_run plays a script to a simulated UICC and writes the trace.

usage: uicc_run play [--store STORE] [--image PATH] < SCRIPT > TRACE
       uicc_run open [--store STORE] [--image PATH] < SCRIPT > TRACE
       uicc_run phone [--link t0] [--store STORE] [--image PATH]
                < SCRIPT > TRACE
       uicc_run load START COUNT [--store STORE] [--image PATH]
       uicc_run bip < SCRIPT > TRACE
       uicc_run --help
       uicc_run --version

`play` makes a card of the script's first lines and carries out the others;
`open` opens the card that the memory holds, and its script begins with start.
`phone` makes a card too, but the other lines are what happens at a handset
that serves it. `load` makes a card of its own, has a handset carry out COUNT
lines that are made from the number START, and writes one line that counts the
commands of its trace; COUNT is at most 1000000. `bip` is over no card: a
terminal carries out commands for its channels to a far end, which gives back
what it is sent, and its script begins with start.

With --link t0 the handset's commands reach the card by T=0 (ISO 7816-3), which
changes nothing in the trace.

The memory is the file at PATH, which is made or filled up with FF to its size,
or else a blank one that is gone at the end. STORE is journal or pages, and
journal where none is named: a memory of 65536 bytes in which each page stays
where it is, or one of 71680 in which pages move, so that writes wear it
evenly.

A script has one statement a line, with its words parted by one space. It
begins with what the card holds:

  df PATH                      a DF: the identifiers from the MF down, of four
                               hexadecimal digits each
  ef PATH t SIZE SHORT RULE    a transparent file of 1 to 32767 bytes, which
                               begin as FF
  ef PATH l LENGTH COUNT SHORT RULE
                               a linear fixed file of 1 to 254 records, of 1 to
                               255 bytes each
  ef PATH c LENGTH COUNT SHORT RULE
                               a cyclic file, with the same bounds
  fill PATH OFFSET HEX         bytes of a transparent file from an offset on, at
                               most 255 of them
  rec PATH NUMBER HEX          the beginning of a record
  pin KEY VALUE on UNBLOCK     a PIN of 8 bytes under the key 01, 81 or 0A, or
                               off in place of on
  row SHELF PRIORITY HEX       an applet on a shelf from 0 to 31, with the data
                               of its installation
  start                        ends this part: the card is opened

SHORT is a short file identifier, 1 to 30, or -. RULE is the identifier of an
EF_ARR and a record number, as 2F06:1, or -. The second part of a script is
what is done to the card, and in `phone` what happens at the handset:

  apdu HEX       sends a command, 1 to 261 bytes (not in `phone`)
  tpdu HEX       sends a TPDU of T=0, 1 to 261 bytes (not in `phone`): data that
                 are announced by 61XX are fetched by GET RESPONSE
  reset          resets the card
  cut K N XX     plans a loss of power in program call K of the next command or
                 reset: N bytes are written, the others become XX.
                 cut K is cut K 0 FF
  fail K XX      plans a failure of program call K, which leaves its bytes XX
  readfail K     plans a failure of read call K
  user ok, end, back or none        (these only in `phone`) answers what the
                                    card asks
  user type TEXT, user pick N       a text of up to 30 bytes, an entry of a
                                    list or of the menu
  user press, user idle             a key is pressed, the screen becomes idle
  user dial DIGITS                  a call that the card may bar
  net place HEX, net poll           a new location, a STATUS command
  time N                            N seconds pass

In `bip` the second part is what happens to the terminal:

  cmd HEX        the card gives a proactive command, 1 to 255 bytes: OPEN
                 CHANNEL, CLOSE CHANNEL, RECEIVE DATA, SEND DATA or GET
                 CHANNEL STATUS
  net echo C N   the far end of channel C, 1 to 7, gives N bytes back, 1 to
                 4096, or as many as it has and there is room for
  net drop C     the link of channel C is lost

Empty lines and lines that begin with # are passed over. A line has at most 600
bytes and ends with a line feed, before which a carriage return is dropped. A
script has at most 16777216 bytes. HEX is an even number of hexadecimal digits.

The trace is written line by line, each as soon as it is known:

  > HEX    the command that was sent
  < HEX    the card's answer: its data and the two status bytes; in `bip` the
           terminal's response
  ! cut    power was lost in a command or a reset
  ! off    a command was sent to a card without power
  ! reset  the card was reset
  * WORDS  what the handset notes: a text, a question, a list, a menu, a tone,
           an idle text, a call, that it was barred, or that the card was busy;
           in `bip` the event that the card is told of, * event HEX

The program ends with a status, and but for 0 and 4 with a last line in the
trace:

  0  the script was read to its end, and every line was carried out
  1  usage           the words of the command line are not as above
  2  line N          line N of the script is wrong, or the script ended before
                     it without a start; in `load`, row N of its card has no
                     applet
  3  read failed     the script could not be read on
  4                  the trace could not be written on
  5  no memory       there was no memory to begin with
  6  eeprom failed   the memory failed or lost power before the card was open,
                     or failed in a reset
  7  not a card AT   the memory holds no card: byte AT is not as the layout
                     has it
     no applet SHELF the applet that is registered on this shelf is not there
  8  line N          there is no room for what line N describes
";
