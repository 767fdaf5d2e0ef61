// The catalogue: a table of names and the kind of each.
ghost use Rattle.std.specs.Prelude.{◌≡◌, ◌+◌, ◌*◌, ◌≤◌, length};
ghost use Rattle.line_bytes.specs.Bytes.{equal};
ghost use Rattle.text.specs.Catalogue.{entry_name};

use line_bytes::kinds;

// So many bytes has an entry of the table.
pub const ENTRY: usize = 16;

// Two tables and not one of structs: catalogue_names and catalogue_kinds promise these bytes, and kind_of takes them lent one beside the other.
// The names, each padded with zeros to 16 bytes, in rising byte order.
pub const NAMES: [u8; 768] = *b"ALKALI\0\0\0\0\0\0\0\0\0\0\
    BTLNBR\0\0\0\0\0\0\0\0\0\0\
    CASTNO\0\0\0\0\0\0\0\0\0\0\
    CCL4\0\0\0\0\0\0\0\0\0\0\0\0\
    CFC-11\0\0\0\0\0\0\0\0\0\0\
    CFC-12\0\0\0\0\0\0\0\0\0\0\
    CFC113\0\0\0\0\0\0\0\0\0\0\
    CTDCT\0\0\0\0\0\0\0\0\0\0\0\
    CTDOXY\0\0\0\0\0\0\0\0\0\0\
    CTDPRS\0\0\0\0\0\0\0\0\0\0\
    CTDRAW\0\0\0\0\0\0\0\0\0\0\
    CTDSAL\0\0\0\0\0\0\0\0\0\0\
    CTDTMP\0\0\0\0\0\0\0\0\0\0\
    DATE\0\0\0\0\0\0\0\0\0\0\0\0\
    DELC13\0\0\0\0\0\0\0\0\0\0\
    DELC14\0\0\0\0\0\0\0\0\0\0\
    DELHE3\0\0\0\0\0\0\0\0\0\0\
    DELHER\0\0\0\0\0\0\0\0\0\0\
    DEPTH\0\0\0\0\0\0\0\0\0\0\0\
    DNSSAL\0\0\0\0\0\0\0\0\0\0\
    EXPOCODE\0\0\0\0\0\0\0\0\
    HELIER\0\0\0\0\0\0\0\0\0\0\
    HELIUM\0\0\0\0\0\0\0\0\0\0\
    LATITUDE\0\0\0\0\0\0\0\0\
    LONGITUDE\0\0\0\0\0\0\0\
    NITRAT\0\0\0\0\0\0\0\0\0\0\
    NITRIT\0\0\0\0\0\0\0\0\0\0\
    NO2+NO3\0\0\0\0\0\0\0\0\0\
    O18O16\0\0\0\0\0\0\0\0\0\0\
    OXYGEN\0\0\0\0\0\0\0\0\0\0\
    PCO2\0\0\0\0\0\0\0\0\0\0\0\0\
    PCO2TMP\0\0\0\0\0\0\0\0\0\
    PH\0\0\0\0\0\0\0\0\0\0\0\0\0\0\
    PHSPHT\0\0\0\0\0\0\0\0\0\0\
    REFTMP\0\0\0\0\0\0\0\0\0\0\
    REVPRS\0\0\0\0\0\0\0\0\0\0\
    REVTMP\0\0\0\0\0\0\0\0\0\0\
    SALNTY\0\0\0\0\0\0\0\0\0\0\
    SAMPNO\0\0\0\0\0\0\0\0\0\0\
    SECT\0\0\0\0\0\0\0\0\0\0\0\0\
    SECT_ID\0\0\0\0\0\0\0\0\0\
    SILCAT\0\0\0\0\0\0\0\0\0\0\
    STNNBR\0\0\0\0\0\0\0\0\0\0\
    TCARBN\0\0\0\0\0\0\0\0\0\0\
    THETA\0\0\0\0\0\0\0\0\0\0\0\
    TIME\0\0\0\0\0\0\0\0\0\0\0\0\
    TRITER\0\0\0\0\0\0\0\0\0\0\
    TRITUM\0\0\0\0\0\0\0\0\0\0";

// The kind of each of them.
pub const KINDS: [u8; 48] = [
    kinds::MEASURED, // ALKALI
    kinds::FREE, // BTLNBR
    kinds::CASTNO, // CASTNO
    kinds::MEASURED, // CCL4
    kinds::MEASURED, // CFC-11
    kinds::MEASURED, // CFC-12
    kinds::MEASURED, // CFC113
    kinds::MEASURED, // CTDCT
    kinds::MEASURED, // CTDOXY
    kinds::MEASURED, // CTDPRS
    kinds::MEASURED, // CTDRAW
    kinds::MEASURED, // CTDSAL
    kinds::MEASURED, // CTDTMP
    kinds::DATE, // DATE
    kinds::MEASURED, // DELC13
    kinds::MEASURED, // DELC14
    kinds::MEASURED, // DELHE3
    kinds::MEASURED, // DELHER
    kinds::DEPTH, // DEPTH
    kinds::MEASURED, // DNSSAL
    kinds::EXPOCODE, // EXPOCODE
    kinds::MEASURED, // HELIER
    kinds::MEASURED, // HELIUM
    kinds::LATITUDE, // LATITUDE
    kinds::LONGITUDE, // LONGITUDE
    kinds::MEASURED, // NITRAT
    kinds::MEASURED, // NITRIT
    kinds::MEASURED, // NO2+NO3
    kinds::MEASURED, // O18O16
    kinds::MEASURED, // OXYGEN
    kinds::MEASURED, // PCO2
    kinds::MEASURED, // PCO2TMP
    kinds::MEASURED, // PH
    kinds::MEASURED, // PHSPHT
    kinds::MEASURED, // REFTMP
    kinds::MEASURED, // REVPRS
    kinds::MEASURED, // REVTMP
    kinds::MEASURED, // SALNTY
    kinds::FREE, // SAMPNO
    kinds::FREE, // SECT
    kinds::FREE, // SECT_ID
    kinds::MEASURED, // SILCAT
    kinds::STNNBR, // STNNBR
    kinds::MEASURED, // TCARBN
    kinds::MEASURED, // THETA
    kinds::TIME, // TIME
    kinds::MEASURED, // TRITER
    kinds::MEASURED, // TRITUM
];

// Whether entry k has the name: the bytes before its first zero, and no others.
// Left at the first other byte: a search that looks for the zero of each entry takes up to twice the time.
pub fn is_entry<'a>(listed: &'a [u8], k: usize, name: &'a [u8]) -> bool
    requires { 16 * k + 16 ≤ length listed.now }
    ensures { result ≡ equal (entry_name listed.now k) name.now }
{
    if ENTRY < name.len() {
        return false;
    }
    let entry = ENTRY * k;
    for j in 0..name.len() {
        if (listed[entry + j] != name[j]) | (name[j] == 0) {
            return false;
        }
    }
    name.len() == ENTRY || listed[entry + name.len()] == 0
}
