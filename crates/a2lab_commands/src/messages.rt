//! The messages of `a2lab`: a row for each, with what is wrong and what to do.

use a2_stream::{Output, WriteFault, put};
use a2_text::decimal;

/// A message on standard error. If a message begins with an argument, such as a command, this is its first value.
#[derive(Clone, Copy)]
pub enum Message {
    NotUtf8,
    UnknownCommand,
    UnknownCommandNear,
    FileForCommand,
    BadKeys,
    UnknownTopic,
    UnknownTopicNear,
    CannotOpen,
    CannotRead,
    Unreadable,
    NeedsFile,
    UnknownPlace,
    PartOutsideRam,
    ImageOverwrites,
    PictureOverwrites,
    KeysAtForm,
    KeysAtKeys,
    KeysAtFull,
    KeysAtUntyped,
    RecordLine,
    RecordOfAnotherSource,
    SessionUnread,
    SessionLine,
    SessionTooLong,
    SessionWithLine,
    ReplayWithOption,
    SessionNotReached,
    CallsWithOption,
    ScriptLine,
    PageOverwrites,
    SourceAsTests,
    SamePage,
    TestPageOverwrites,
    PageNotWritten,
    NoPromise,
    NoPromiseOf,
    NoFailure,
    FilmOverwrites,
    ObjectOverwrites,
    NotFill,
    FullDisk,
    ManyFilesForDisk,
    SameNameOnDisk,
    NotNameOnDisk,
    SeveralFilesForObject,
    LargeFile,
    NotDisk,
    NoFilesOnDisk,
    NoSuchFileOnDisk,
    SeveralFilesOnDisk,
    NotAddress,
    PlainWithoutAddress,
    CannotLayOut,
    CheckWithWrite,
    SeveralFiles,
    WriteWithoutFiles,
    KeysOverwrite,
    KeysNotWritten,
    UnknownPace,
    PlayWithoutTerminal,
    PlayWithoutKeys,
    SmallTerminal,
    PanesWithoutTerminal,
    SmallTerminalForPanes,
    NoEditorMessage,
    SourceAddress,
    SourceSpan,
    SourceTooLarge,
    SourceNames,
    SourceWithoutCode,
    SourceSameName,
    SourceUnlike,
    DumpLine,
    DumpAddress,
    DumpOutside,
}

/// The most keys that can wait.
pub(crate) const MOST_KEYS: u64 = 4096;

/// A value that a message names.
#[derive(Clone, Copy)]
pub enum Value<'a> {
    Text(&'a str),
    Bytes(&'a [u8]),
    Number(u64),
}

// A message's sentence, in which `@` is where the next value goes.
fn sentence(message: Message) -> &'static str {
    match message {
        Message::NotUtf8 =>
            "an argument is not valid UTF-8; rename the file, or give the source on standard input",
        Message::UnknownCommand => "unknown command @; a2lab help lists all commands",
        Message::UnknownCommandNear => "unknown command @; did you mean @?",
        Message::FileForCommand => "unknown command @; did you mean a2lab run @?",
        Message::BadKeys =>
            "@: --keys @: expected at most @ keys, which are the characters from space to ~, \\r for RETURN, \\b and \\f for the arrows, \\x for Ctrl-X, and \\\\ for \\",
        Message::UnknownTopic =>
            "help: unknown topic @; name a command, an error such as E7, a cause of a stop such as LIMIT, an instruction such as LDA, a service such as COUT, a location such as $24, or a word such as STACK",
        Message::UnknownTopicNear => "help: unknown topic @; did you mean @?",
        Message::CannotOpen => "cannot open @; check its name and its permissions",
        Message::CannotRead =>
            "@: cannot read @; check its name and its permissions, and that it is not a folder",
        Message::Unreadable => "cannot read @; check its permissions, and that it is not a folder",
        Message::NeedsFile =>
            "@: needs a file, because standard input is for what you type (a2lab help @)",
        Message::UnknownPlace =>
            "@ @: unknown place; write $300, a name such as LOOP, LOOP+2, a line such as 12:, or two of these with .. between them, the lower one first",
        Message::PartOutsideRam => "run: --mem @: expected places in RAM, which ends at $BFFF",
        Message::ImageOverwrites => "run: the image would overwrite @; give --save another name",
        Message::PictureOverwrites => "run: the picture would overwrite @; give --png another name",
        Message::KeysAtForm =>
            "@: --keys-at @: expected a number of steps from 0 to 100000000, a colon and keys, such as 1200:HI\\r",
        Message::KeysAtKeys =>
            "@: --keys-at @: expected at most @ keys, which are the characters from space to ~, \\r for RETURN, \\b and \\f for the arrows, \\x for Ctrl-X, and \\\\ for \\",
        Message::KeysAtFull =>
            "@: after step @, more than @ keys would be waiting; type some of them later",
        Message::KeysAtUntyped =>
            "@: the run ended after step @, so the keys for step @ were not typed; type them earlier, or give a higher --limit",
        Message::RecordLine =>
            "--replay @, line @: expected a number of steps and the code of a key, as in 1200 41; the last line is as in 2000 END",
        Message::RecordOfAnotherSource =>
            "@: --replay @: this is a recording of another source; give the source that was played",
        Message::SessionUnread =>
            "@: @, line @: cannot read the recording @; its name is relative to the folder of this file",
        Message::SessionLine =>
            "@: @, line @: @, line @: expected a number of steps and the code of a key, as in 1200 41; the last line is as in 2000 END",
        Message::SessionTooLong =>
            "@: @, line @: the recording @ has more than @ steps, or a key after them; record a shorter session",
        Message::SessionWithLine =>
            "@: @, line @: replay @ cannot be combined with line @ in one case, because a session is repeated with its own keys and with the guard; leave out one of the two lines",
        Message::ReplayWithOption =>
            "--replay cannot be combined with @, because a session is repeated with its own keys and with the guard; leave @ out",
        Message::SessionNotReached =>
            "debug: --replay @: this is a recording of another source, or of more than 100000000 steps; give the source that was played",
        Message::CallsWithOption =>
            "trace: --calls cannot be combined with @, because --calls shows the routines of the whole run; leave one of them out",
        Message::ScriptLine =>
            "film: @, line @: not a chapter; write `120 TEXT`, `line 12 TEXT` or `line LOOP TEXT` (a2lab help film)",
        Message::PageOverwrites => "film: the page would overwrite @; give -o another name",
        Message::SourceAsTests =>
            "test: @ looks like a source; the test file comes first, as in a2lab test WANT @",
        Message::SamePage =>
            "test: --pages: @ and @ would have the same page; rename one of the two files",
        Message::TestPageOverwrites =>
            "test: a page would overwrite @; give --pages another folder",
        Message::PageNotWritten =>
            "test: cannot write the page @; check that its folder exists, and its permissions",
        Message::NoPromise =>
            "promise: @ has no promises; write lines such as `;: ensures A = old A + 1` before a label (a2lab help promise)",
        Message::NoPromiseOf =>
            "promise: @ has no promise before the label @; without --only, all its promises are tried",
        Message::NoFailure => "promise: no routine failed, so the film @ was not written",
        Message::FilmOverwrites => "promise: the film would overwrite @; give --film another name",
        Message::ObjectOverwrites => "object: the output would overwrite @; give it another name",
        Message::NotFill =>
            "object: --fill @: expected a byte of one or two hexadecimal digits, such as 00",
        Message::FullDisk =>
            "object: --dsk @: @ does not fit: a disk has 496 sectors of 256 bytes for files and for a list of each; write it to another disk",
        Message::ManyFilesForDisk =>
            "object: --dsk @: a disk has at most 105 files; write the others to another disk",
        Message::SameNameOnDisk =>
            "object: --dsk @: the name that @ would have on the disk is that of an earlier file; rename one of them",
        Message::NotNameOnDisk =>
            "object: --dsk @: @ gives no name for the disk: a name begins with a letter and has at most 30 characters, without a comma; rename the file",
        Message::SeveralFilesForObject =>
            "object: several files need --dsk, without -o and --tape; give one file for each object or tape",
        Message::LargeFile =>
            "@: @ has more than 1048576 bytes, more than any source or image needs; check its name",
        Message::NotDisk =>
            "@: a file of this name is a disk, but it does not have the 143360 bytes of one; check whether it is whole",
        Message::NoFilesOnDisk =>
            "@: the disk has no binary file; only files of type B can be read",
        Message::NoSuchFileOnDisk =>
            "@: the disk has no binary file @; the lines above name those that it has",
        Message::SeveralFilesOnDisk =>
            "@: the disk has several binary files, which the lines above name; choose one, as in @:HELLO",
        Message::NotAddress =>
            "@: --at @: expected an address of one to four hexadecimal digits, such as 300",
        Message::PlainWithoutAddress =>
            "@: --from raw: plain bytes have no address; give it, such as --at 300",
        Message::CannotLayOut =>
            "fmt: @: unchanged, because in columns it would be longer than 65536 bytes or would no longer mean the same; split the file, or lay it out by hand",
        Message::CheckWithWrite => "fmt: --check and -w cannot be combined; give one of them",
        Message::SeveralFiles =>
            "fmt: only one file can be printed; give --check or -w for several files",
        Message::WriteWithoutFiles => "fmt: -w needs the names of the files to rewrite",
        Message::KeysOverwrite => "play: the keys would overwrite @; give --record another name",
        Message::KeysNotWritten =>
            "play: cannot write the keys to @; the file is unchanged, so give --record another name",
        Message::UnknownPace =>
            "play: --pace @: expected max or a number of cycles per second from 1000 to 1000000000",
        Message::PlayWithoutTerminal =>
            "play: standard input and output must be a terminal; a2lab run --keys K F runs without one",
        Message::PlayWithoutKeys =>
            "play: the terminal is not set up for keys; start it with the command a2lab, not with the program lib/a2/a2lab",
        Message::SmallTerminal => "play: the terminal has @x@ characters; make it at least 80x24",
        Message::PanesWithoutTerminal =>
            "debug: --tui: standard input, output and error must be a terminal; leave --tui out to use files or pipes",
        Message::SmallTerminalForPanes =>
            "debug: --tui: the terminal has @x@ characters; make it at least 80x24",
        Message::NoEditorMessage =>
            "@: @; this command answers an editor, which starts it (a2lab help @)",
        Message::SourceAddress =>
            "source: @ @: expected an address from 0 to BFFF in hexadecimal digits, such as 300",
        Message::SourceSpan =>
            "source: @ @: expected an address from 0 to BFFF, or two with .. between them, the lower one first, such as 300..3FF",
        Message::SourceTooLarge =>
            "source: @: the source would have at least @ lines and @ bytes, and the most are 4096 lines and 65536 bytes; write a part of it with --only, such as --only 300..AFF",
        Message::SourceNames =>
            "source: @: the source would have more than 1024 names; write a part of it with --only, such as --only 300..AFF",
        Message::SourceWithoutCode =>
            "source: @: no instruction begins at an entry, and a source needs one; give --entry an address where code begins",
        Message::SourceSameName =>
            "source: @: two addresses would have the same name; give each name once in the file of --names, and none such as L0300, SUB0300, D0300 or W0006",
        Message::SourceUnlike =>
            "source: @: no source was found that has these bytes; please report it",
        Message::DumpLine =>
            "source: @, line @: expected an address and bytes, such as 0300- A9 C1 or 300:A9 C1; for a file of bytes, give --at the address of its first byte",
        Message::DumpAddress =>
            "source: @, line @: the first bytes need an address, such as 300:A9 C1",
        Message::DumpOutside =>
            "source: @, line @: a byte would be at or above $C000, where RAM ends; remove it",
    }
}

// Writes a value.
fn put_value<'a, W: Output>(value: Value<'a>, writer: &mut W) -> Result<(), WriteFault> {
    match value {
        Value::Text(text) => put(text.as_bytes(), writer),
        Value::Bytes(bytes) => put(bytes, writer),
        Value::Number(number) => put(decimal(number).as_slice(), writer),
    }
}

// Writes a sentence with its values.
fn put_sentence<W: Output>(
    sentence: &str,
    values: &[Value<'_>],
    writer: &mut W,
) -> Result<(), WriteFault> {
    let mut rest = sentence;
    for value in values {
        if let Some((front, after)) = rest.split_once('@') {
            put(front.as_bytes(), writer)?;
            put_value(*value, writer)?;
            rest = after;
        }
    }
    put(rest.as_bytes(), writer)
}

/// Writes a message as a line that begins with the program's name. If a write fails, there is no place left to report it.
pub fn report<E: Output>(message: Message, values: &[Value<'_>], complaints: &mut E) {
    let _ = put(b"a2lab: ", complaints);
    let _ = put_sentence(sentence(message), values, complaints);
    let _ = put(b"\n", complaints);
}
