// What the program says of itself.

/// The program and its version.
pub const VERSION: &str = "cms 0.1.0";

/// How the program is called, what it runs, and how it ends.
pub const HELP: &str = "\
cms: CMS minidisks in image files, with their commands and procedures.

usage: cms [-t TURNS] [-z ZONE] [-g NUMBER] VDEV,BSIZE,ACCESS,NAME ..

  VDEV    the device: three hexadecimal digits, not 000; 191 becomes disk A
  BSIZE   the bytes of a block of the image: 512, 1024, 2048 or 4096
  ACCESS  ro: the image is only read
          rw: it may be written
          n and a number of blocks, 8 to 1,048,576: it is made, of zeros
  NAME    the image file: all behind the third comma

  -t TURNS   the turns that the session has, 1 to 1,000,000,000; else 1,000,000
  -z ZONE    what is added to the clock's UTC for stamps: E (added) or W (taken away) and hhmm,
             hours to 14 and minutes to 59, as E0100; else E0000
  -g NUMBER  the commands are a generated script, by this number to 2,147,483,647; standard
             input isn't read

There are up to 16 units, no two with one device; their images are attached in their order.

The commands are read from standard input, a line each. What they type goes to standard
output, and behind each command its ready line: R; or, with a return code, R(00028);

  ACCESS v m       gives the volume of device v the letter m; with m/p, as an extension of p
  COPYFILE fn ft fm fn ft fm   copies files record by record, as they are or changed by options
  DISK DUMP fn ft fm   dumps a file onto a deck of cards; DISK LOAD m writes the file of the
                   first deck
  EDIT fn ft m     reads a file into the line editor, an extension; EDIT alone reads its subcommands
                   from the next lines, up to END
  ERASE fn ft fm   erases files; when its ready line is typed they are gone for good
  EXEC fn words    runs the procedure fn EXEC, as does a line that begins with its name
  EXECIO n DISKR fn ft fm   leaves n records of a file on the program stack, from which the next
                   lines are taken; EXECIO n DISKW fn ft fm adds n lines to a file
  FORMAT v m       makes an empty volume on device v and gives it the letter m, after two questions;
                   with (LABEL it asks for another label alone
  LISTFILE fn ft fm   lists files, by patterns as A%C*
  NUCXDROP word    drops the extension of a word; NUCXMAP types the words
  PUNCH fn ft fm   punches the records of a file onto a deck of cards
  QUERY DISK       shows the accessed disks and their room, with a letter that disk alone
  QUERY SEARCH     shows how disks are searched
  READCARD fn ft fm   writes the cards of the first deck as a file
  RELEASE disk     gives up a disk, by its letter or its device
  RENAME fn ft fm fn ft fm   gives files other names or mode numbers
  STATE fn ft fm   says whether a file is there
  TALLY            is an extension: it says how often it was called
  TYPE fn ft fm    types the records of a file
  * text           is a comment

A mode fm is a letter, also with a number, and may be left out of all but COPYFILE and RENAME.
Each line costs a turn, and so does each statement of a procedure.

example: what is on the image disk.img, in a shell

  printf 'TYPE HELLO TEXT A\\n' | cms 191,512,ro,disk.img

status:
  0  the commands were read to their end
  2  the words are refused, with the reason on standard output:
       1  there is no unit word, or an option is unknown, given twice or without a value
       2  a unit word isn't VDEV,BSIZE,ACCESS,NAME, or it is the 17th
       3  TURNS isn't as above
       4  ZONE isn't as above
       5  two unit words have one device
       6  NUMBER isn't as above
  3  there is no memory
  4  an image is in use or couldn't be attached, or the input, the output or the clock failed
  5  the turns are spent

At 2 to 5 a line on standard error says what failed.";
