//! The help texts of the program.

use crate::command::Command;

/// The text of `--help`.
pub const HELP: &str = "\
Reads files of audio, video, transport and compression, and prints the elements of their headers.

usage: formats COMMAND [OPTION..] FILE..     FILE is - for standard input
       formats COMMAND --help                prints what a command reads
       formats --version

  h264           NAL units of H.264, with parameter sets (profile, size, reference frames) and headers of slices
  h265           NAL units of H.265, with parameter sets (profile, level, size)
  av1            OBUs of AV1 with sequence headers, bare or in IVF
  adts           frames of AAC in ADTS, also after ID3v2
  ogg            pages and packets of Ogg; the codecs are named
  ts             packets of MPEG-TS, of 188 bytes or of 192 (M2TS), with tables of programs
  flac-headers   metadata and frame headers of FLAC
  gzip-headers   headers and trailers of the members of gzip
  flac           writes the samples of FLAC, as whole bytes with a sign, the lowest byte first
  flac-wav       writes the samples of FLAC as a WAV file
  flac-test      checks FLAC, and writes nothing
  flac-encode    writes the samples of a WAV file, or samples without a header, as FLAC
  gunzip         writes the bytes of gzip

  --json         prints a JSON object for each unit, on a line of its own
  --table        prints a heading for each unit, and its elements in columns
  --only NAME    prints the elements of this name alone; several names are allowed
  --errors       prints errors alone; a FILE may be a directory, whose files are read in the order of their names
  -o FILE        writes FILE, and not standard output; one file is read then
  --             ends the options

With no option a line has an element: its place in bits, its name and its value. A unit that is refused is reported
on standard error with its number, its byte in the file and the bit in the unit, and the next one is read.

Status: 0 all was read; 1 a unit was refused, or the file has none; 2 a wrong call; 3 a file was not read, or the
output not written; 4 all was read, and bytes after it were ignored.

For tests: formats rows LIST; formats damaged COMMAND FILE.
";

/// Returns the text of `--help` after a command.
pub fn help_of(command: Command) -> &'static str {
    match command {
        Command::H264 => "\
usage: formats h264 [--json | --table | --errors] [--only NAME].. FILE..

Reads an H.264 byte stream (annex B). A unit is a NAL unit: the header of each, and all elements of sequence and
picture parameter sets and of the headers of slices, with the names and places of the standard. Places count in the
unit, without its start code and its bytes against emulation. A sequence parameter set also has its profile, width,
height and reference_frames, and each SEI message its payloadType, its payloadSize in bytes and its name.
e.g.   formats h264 --json FILE | jq -c 'select(.type == \"SPS\") | .about'
",
        Command::H265 => "\
usage: formats h265 [--json | --table | --errors] [--only NAME].. FILE..

Reads an H.265 byte stream (annex B). A unit is a NAL unit: the header of each, and all elements of video, sequence
and picture parameter sets, with the names and places of the standard. Places count in the unit, without its start
code and its bytes against emulation. A sequence parameter set also has its profile, tier, level, width and height.
e.g.   formats h265 --json FILE | jq -c 'select(.type == \"SPS\") | .about'
",
        Command::Av1 => "\
usage: formats av1 [--json | --table | --errors] [--only NAME].. FILE..

Reads AV1 in the low-overhead format, bare or in a file of IVF. A unit is an OBU, the header of the file, or the
header of a frame of IVF: the header of each OBU, and all elements of sequence headers. Places count in the file.
e.g.   formats av1 --json FILE | jq -c 'select(.type == \"sequence_header\") | .about'
",
        Command::Adts => "\
usage: formats adts [--json | --table | --errors] [--only NAME].. FILE..

Reads AAC in ADTS, also after a tag of ID3v2. A unit is a frame, of which the header is read, or the tag.
e.g.   formats adts --only aac_frame_length FILE
",
        Command::Ogg => "\
usage: formats ogg [--json | --table | --errors] [--only NAME].. FILE..

Reads Ogg. A unit is a page: its header, the checksum of which is checked, and the length of each packet that ends
in it. The first page of a stream names its codec. Packets of Opus have their first byte: config, s and c.
e.g.   formats ogg --json FILE | jq -r .about.codec | sort | uniq -c
",
        Command::Ts => "\
usage: formats ts [--json | --table | --errors] [--only NAME].. FILE..

Reads an MPEG transport stream, of packets of 188 bytes, or of 192 as in M2TS. A unit is a packet: its header, its
adaptation field, and the header of a PES packet that begins in it, or the sections of the program association table
and of program maps that end in it, with the names of the types of streams. Checksums of sections are checked.
e.g.   formats ts --json FILE | jq -c 'select(.type == \"PMT\") | .about'
",
        Command::FlacHeaders => "\
usage: formats flac-headers [--json | --table | --errors] [--only NAME].. FILE..

Reads the metadata of FLAC (STREAMINFO, tags, the sizes of pictures, seek points) and the header of each frame. A
unit is a block of metadata or a frame, which is decoded and checked.
e.g.   formats flac-headers --json FILE | jq 'select(.type == \"STREAMINFO\")'
",
        Command::GzipHeaders => "\
usage: formats gzip-headers [--json | --table | --errors] [--only NAME].. FILE..

Reads gzip in constant memory. A unit is a member: its header and its trailer, with the names of RFC 1952. Its bytes
are unpacked and checked, and not written.
e.g.   formats gzip-headers --json FILE | jq .elements.ISIZE
",
        Command::Flac(_) => "\
usage: formats flac [--order little | --order big] [-o FILE] FILE..

Writes the samples of FLAC, as whole bytes with a sign. The lowest byte is first, or the highest one (`--order big`).
A tag of ID3v2 before the file is skipped.
",
        Command::FlacTest => "\
usage: formats flac-test FILE..

Decodes FLAC, and compares all checksums, the number of samples and their MD5. Nothing is written.
",
        Command::FlacWav => "\
usage: formats flac-wav [-o FILE] FILE..

Writes the samples of FLAC as a WAV file. A sample of other than whole bytes fills its highest bits.
",
        Command::FlacEncode(_) => "\
usage: formats flac-encode [OPTION..] [-o FILE] FILE..

Writes the samples of a WAV file, of one to eight channels and at most 32 bits, as FLAC, in constant memory. The encoder
of its frames is proved lossless. A file that ends inside its samples has status 1, after the samples that are there.

STREAMINFO has the number of samples and their MD5. With `-o FILE` it is completed at the end, with the sizes of frames.
Without `-o`, or if FILE cannot seek, an input file is read twice. From a pipe to standard output there is no MD5, and the
number is the one that the WAV header states, or else 0: not known.

  -0 .. -8, --level N   0 to 2: blocks of 1152 samples, 3 to 8: of 4096. 0 and 3: each channel is coded by itself;
                        6 to 8: two channels are coded in all four ways, and the shortest is kept; the others: in the
                        way that seems shortest. The predictions are the same at each level. Without a level: 5
  --block-size N        blocks of N samples, 16 to 65535
  --padding N           N empty bytes for tags, 0 to 16777215; without the option: 8192
  --seek-points N       at most N seek points, 0 to 1000, with -o; without the option: 0
  --raw                 FILE has samples and no header: whole bytes with a sign, of all channels in turn. It needs:
    --channels N        1 to 8
    --bits N            bits of a sample, 4 to 32
    --rate N            samples per second, 1 to 1048575
    --order ORDER       `little` (the lowest byte first; without the option) or `big`

e.g.   formats flac-encode -8 -o sound.flac sound.wav && flac -t sound.flac
",
        Command::Gunzip => "\
usage: formats gunzip [-o FILE] FILE..

Writes the bytes of gzip, of all members, in constant memory. Zeros after the last member are
ignored; other bytes too, with status 4. Of a member that is cut the bytes that are there are written.
",
    }
}

/// The text of `--version`.
pub const VERSION: &str = "formats 1.0.0\n";
