// The functions of `exports` under the names that C calls, each with its clause. A crate that others use is no static library, so they stand in
// one of their own.
#![tactic(auto)]

ghost use Rattle.boxes.specs.Find.{find_box};
ghost use Rattle.boxes.specs.Header.{header_at, header_refusal, header_or_blank};
ghost use Rattle.expander.specs.EquivalentFile.{file};
ghost use Rattle.exports.specs.Answer.{Answered, expand_refusal};
ghost use Rattle.ftyp.specs.ReadFileType.{read_file_type, file_type_or_blank, file_type_refusal};
ghost use Rattle.mini.specs.Read.{read_mini};
ghost use Rattle.layout.specs.CheckBytes.{check_bytes};
ghost use Rattle.layout.specs.FileTypeBytes.{file_type_bytes};
ghost use Rattle.layout.specs.HeaderBytes.{header_bytes};
ghost use Rattle.record_layout.specs.RecordBytes.{record_bytes};
ghost use Rattle.writer.specs.ToBox.{box_of};

// Reads the header of the box at `start` of `buf`, for every buffer and every start.
#[unsafe(no_mangle)]
pub extern "C" fn bustardcase_box_header(buf: &[u8], start: usize, out: &mut [u8]) -> u64
    ensures { Answered (header_refusal (header_at buf.now start)) 0 (header_bytes (header_or_blank (header_at buf.now start))) out.old out.new result }
{
    exports::bustardcase_box_header(buf, start, out)
}

// Reads a payload to its record, for every payload.
#[unsafe(no_mangle)]
pub extern "C" fn bustardcase_read(payload: &[u8], out: &mut [u8]) -> u64
    ensures { Answered (read_mini payload.now).refusal (read_mini payload.now).bit (record_bytes (read_mini payload.now).image) out.old out.new result }
{
    exports::bustardcase_read(payload, out)
}

// Writes the record of a payload as a box, in its shortest form, for every payload.
#[unsafe(no_mangle)]
pub extern "C" fn bustardcase_rewrite(payload: &[u8], out: &mut [u8]) -> u64
    ensures { Answered (read_mini payload.now).refusal (read_mini payload.now).bit (box_of (read_mini payload.now).image payload.now) out.old out.new result }
{
    exports::bustardcase_rewrite(payload, out)
}

// Writes the equivalent file of the record of a payload, for every payload and every original file type.
#[unsafe(no_mangle)]
pub extern "C" fn bustardcase_expand(
    payload: &[u8],
    major: u32,
    minor: u32,
    brands: &[u8],
    out: &mut [u8],
) -> u64
    ensures { Answered (expand_refusal payload.now brands.now) (read_mini payload.now).bit (file (read_mini payload.now).image payload.now major minor brands.now) out.old out.new result }
{
    exports::bustardcase_expand(payload, major, minor, brands, out)
}

// Finds the first box of a type among the boxes that follow one another from the start of `buf`, for every buffer and every type.
#[unsafe(no_mangle)]
pub extern "C" fn bustardcase_find_box(buf: &[u8], box_type: u32, out: &mut [u8]) -> u64
    ensures { Answered (header_refusal (find_box box_type buf.now)) 0 (header_bytes (header_or_blank (find_box box_type buf.now))) out.old out.new result }
{
    exports::bustardcase_find_box(buf, box_type, out)
}

// Reads the file type of the payload of an 'ftyp' box, for every payload.
#[unsafe(no_mangle)]
pub extern "C" fn bustardcase_file_type(body: &[u8], out: &mut [u8]) -> u64
    ensures { Answered (file_type_refusal (read_file_type body.now)) 0 (file_type_bytes (file_type_or_blank (read_file_type body.now))) out.old out.new result }
{
    exports::bustardcase_file_type(body, out)
}

// Checks the record of a payload against what a display takes, for every payload.
#[unsafe(no_mangle)]
pub extern "C" fn bustardcase_check(payload: &[u8], out: &mut [u8]) -> u64
    ensures { Answered (read_mini payload.now).refusal (read_mini payload.now).bit (check_bytes (read_mini payload.now).image) out.old out.new result }
{
    exports::bustardcase_check(payload, out)
}
